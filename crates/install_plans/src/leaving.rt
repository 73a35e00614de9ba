ghost use Rattle.std.specs.Prelude.{◌≡◌, IfOk};
ghost use Rattle.run_rules.specs.Disk.{Disk};
ghost use Rattle.node_rules.specs.NodeState.{NodeState, table_at};
ghost use Rattle.install_laws.specs.InstallPlans.{plan_left};
ghost use Rattle.disk_model.specs.Disk.{Pages, Logs};
ghost use Rattle.install_plans.specs.Plans.{Fits, plan_of, turnover_of};

use crate::plan::{PartitionPlan, TableAfter, Turnover, plain};
use crate::planner::Planner;
use home::Home;
use pcl_base::{NoMemory, NodeNo, Report};
use rebuild::{own_report, report};

/// Plans a partition that another node gets, which is told what this one has of it. Where this node
/// owned it, its table goes, and its locks are reported as the registered ones that they become.
pub(crate) fn plan_left(
    by: &Planner,
    home: &Home,
    q: NodeNo,
    to: NodeNo,
    owned: bool,
) -> Result<PartitionPlan, NoMemory>
    requires { home.now.config ≡ by.now.config }
    ensures planned { (d : Disk) (n : NodeState) → n.home ≡ home.now → IfOk result (λ p. plan_left owned to q n ≡ plan_of d (table_at n q) p) }
    ensures fits { (pages : Pages) (logs : Logs) → IfOk result (Fits by.now.config by.now.me q pages logs) }
{
    let config = &by.config;
    let shown = report(by.alloc, home.txs(), home.shelf(), home.pool(), config, q)?;
    if !owned {
        return Ok(plain(by, Turnover::Stays, TableAfter::AsBefore, Some((to, shown))));
    }
    let own = own_report(by.alloc, home.txs(), home.pool(), config, q)?;
    let all = with_rights_of(own, shown);
    Ok(plain(by, Turnover::Left, TableAfter::Gone, Some((to, all))))
}

/// A report with the rights of another one.
fn with_rights_of(report: Report, other: Report) -> Report
    ensures { result ≡ record { partition = report.partition; waits = report.waits; locks = report.locks; rights = other.rights } }
{
    let Report {
        partition,
        waits,
        locks,
        rights: _,
    } = report;
    let Report {
        partition: _,
        waits: _,
        locks: _,
        rights,
    } = other;
    Report {
        partition,
        waits,
        locks,
        rights,
    }
}
