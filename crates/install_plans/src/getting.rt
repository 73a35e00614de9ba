ghost use Rattle.std.specs.Prelude.{◌≡◌, ◌<◌, ◌≤◌, ℕ, List, Option, Some, None, length, IfOk, IfErr};
ghost use Rattle.pcl_base.specs.Faults.{Rose};
ghost use Rattle.pcl_base.specs.declared.trace.Call.{Call as Kind};
ghost use Rattle.disk_model.specs.Disk.{HasSizes};
ghost use Rattle.run_rules.specs.Disk.{Disk};
ghost use Rattle.node_rules.specs.LockTable.{LockTable};
ghost use Rattle.node_rules.specs.NodeState.{NodeState};
ghost use Rattle.install_laws.specs.InstallPlans.{plan_get};
ghost use Rattle.redo_log.specs.Told.{NoneFails};
ghost use Rattle.install_plans.specs.Plans.{Fits, Plans, IsPlanFault, halted_by};

use crate::completing::plan_rebuilt;
use crate::plan::{PartitionPlan, Turnover};
use crate::planner::Planner;
use authority_map::View;
use disk_model::Storage;
use home::Home;
use lock_table::Table;
use node_parts::StepFault;
use pcl_base::NodeNo;
use rebuild::{gather, own_report};

/// Plans a partition that the node gets: a new table of what the node itself has of it, which is
/// served where no other node has to report.
pub(crate) fn plan_get<S: Storage>(
    by: &Planner,
    home: &Home,
    view: &View,
    q: NodeNo,
    s: &mut S,
) -> Result<PartitionPlan, StepFault>
    requires sizes { HasSizes by.now.config (S.pages s.old) (S.logs s.old) (S.rooms s.old) }
    requires me { by.now.me < by.now.config.nodes }
    requires config { home.now.config ≡ by.now.config }
    requires number { home.now.txs.node ≡ by.now.me }
    requires nodes { length view.now.live ≡ by.now.config.nodes }
    requires q { q < by.now.config.nodes }
    ensures planned { (d : Disk) (n : NodeState) (before : Option LockTable) → S.pages s.old ≡ Some d.pages → S.logs s.old ≡ Some d.logs → n.home ≡ home.now → n.view ≡ Some view.now → Plans (plan_get d d.pages q n) d before result }
    ensures fits { IfOk result (Fits by.now.config by.now.me q (S.pages s.old) (S.logs s.old)) }
    ensures fault { IfErr result IsPlanFault }
    ensures pages { S.pages s.new ≡ S.pages s.old }
    ensures logs { S.logs s.new ≡ S.logs s.old }
    ensures rooms { S.rooms s.new ≡ S.rooms s.old }
    ensures stops { S.stops s.new ≡ S.stops s.old }
    ensures calm { (l : List (Option ℕ)) → NoneFails (S.failing s.old) by.now.me l → NoneFails (S.failing s.new) by.now.me l }
    ensures quiet { (l : List (Option ℕ)) → NoneFails (S.failing s.old) by.now.me l → halted_by result ≡ None }
    ensures counts { (k : Kind) → S.faults s.old k ≤ S.faults s.new k }
    ensures cause { (k : Kind) → halted_by result ≡ Some k → Rose (S.faults s.old k) (S.faults s.new k) }
{
    let own = own_report(by.alloc, home.txs(), home.pool(), &by.config, q)?;
    let mut table = Table::open(by.alloc, &by.config, q, false)?;
    let complete = gather(&mut table, &by.config, by.me, &own, view)?;
    plan_rebuilt(by, Turnover::Taken, table, complete, s)
}
