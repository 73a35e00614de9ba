ghost use Rattle.std.specs.Prelude.{◌≡◌, ◌<◌, ◌≤◌, ℕ, List, Option, Some, None, false, length, IfOk, IfErr};
ghost use Rattle.pcl_base.specs.Faults.{Rose};
ghost use Rattle.pcl_base.specs.declared.trace.Call.{Call as Kind};
ghost use Rattle.disk_model.specs.Disk.{HasSizes};
ghost use Rattle.run_rules.specs.Disk.{Disk};
ghost use Rattle.node_rules.specs.LockTable.{LockTable};
ghost use Rattle.node_rules.specs.NodeState.{NodeState, number_of};
ghost use Rattle.node_rules.specs.Reports.{gather, own_report};
ghost use Rattle.install_laws.specs.InstallPlans.{Stays as stays, plan_get, plan_rebuilt};
ghost use Rattle.lock_table.specs.Tables.{table_of};
ghost use Rattle.redo_log.specs.Told.{NoneFails};
ghost use Rattle.rebuild.specs.Parts.{IsReportOf, IsTableOf};
ghost use Rattle.install_plans.specs.Plans.{Fits, Plans, IsPlanFault, halted_by};

use crate::completing::plan_rebuilt;
use crate::plan::{PartitionPlan, Turnover};
use crate::planner::Planner;
use authority_map::View;
use disk_model::Storage;
use home::Home;
use lock_table::Table;
use node_parts::StepFault;
use pcl_base::{NodeNo, Report};
use rebuild::{gather, own_report};

/// Plans a partition that is rebuilt and of which a report arrives: its table with what the report
/// lists, which is served where it misses no further one.
pub(crate) fn plan_gathered<S: Storage>(
    by: &Planner,
    t: &Table,
    from: NodeNo,
    report: &Report,
    view: &View,
    s: &mut S,
) -> Result<PartitionPlan, StepFault>
    requires sizes { HasSizes by.now.config (S.pages s.old) (S.logs s.old) (S.rooms s.old) }
    requires me { by.now.me < by.now.config.nodes }
    requires table { IsTableOf by.now.config t.now }
    requires nodes { length view.now.live ≡ by.now.config.nodes }
    requires from { from < by.now.config.nodes }
    requires report { IsReportOf t.now report.now }
    requires serving { t.now.serving ≡ false }
    ensures planned { (d : Disk) (n : NodeState) (before : Option LockTable) → S.pages s.old ≡ Some d.pages → S.logs s.old ≡ Some d.logs → n.home.config ≡ by.now.config → number_of n ≡ by.now.me → n.view ≡ Some view.now → Plans (plan_rebuilt stays d d.pages t.now.partition n (gather (table_of t.now) from report.now)) d before result }
    ensures fits { IfOk result (Fits by.now.config by.now.me t.now.partition (S.pages s.old) (S.logs s.old)) }
    ensures fault { IfErr result IsPlanFault }
    ensures pages { S.pages s.new ≡ S.pages s.old }
    ensures logs { S.logs s.new ≡ S.logs s.old }
    ensures rooms { S.rooms s.new ≡ S.rooms s.old }
    ensures stops { S.stops s.new ≡ S.stops s.old }
    ensures calm { (l : List (Option ℕ)) → NoneFails (S.failing s.old) by.now.me l → NoneFails (S.failing s.new) by.now.me l }
    ensures quiet { (l : List (Option ℕ)) → NoneFails (S.failing s.old) by.now.me l → halted_by result ≡ None }
    ensures counts { (k : Kind) → S.faults s.old k ≤ S.faults s.new k }
    ensures cause { (k : Kind) → halted_by result ≡ Some k → Rose (S.faults s.old k) (S.faults s.new k) }
{
    let mut table = t.copy()?;
    let complete = gather(&mut table, &by.config, from, report, view)?;
    plan_rebuilt(by, Turnover::Stays, table, complete, s)
}
