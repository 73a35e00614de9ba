ghost use Rattle.std.specs.Prelude.{◌≡◌, ◌<◌, ◌≤◌, ℕ, List, Option, Some, None, true, false, All, fold, map, IfOk, IfErr};
ghost use Rattle.pcl_base.specs.Faults.{Rose};
ghost use Rattle.pcl_base.specs.declared.trace.Call.{Call as Kind};
ghost use Rattle.disk_model.specs.Disk.{HasSizes};
ghost use Rattle.run_rules.specs.Disk.{Disk};
ghost use Rattle.node_rules.specs.LockTable.{LockTable, serve};
ghost use Rattle.node_rules.specs.NodeState.{NodeState, number_of};
ghost use Rattle.node_rules.specs.InstallRule.{is_complete};
ghost use Rattle.install_laws.specs.InstallPlans.{plan_complete, plan_rebuilt};
ghost use Rattle.lock_table.specs.Tables.{IsPageOf, SamePlace, found, table_of};
ghost use Rattle.redo_log.specs.Told.{NoneFails};
ghost use Rattle.rebuild.specs.Parts.{IsTableOf};
ghost use Rattle.install_plans.specs.Plans.{Fits, Plans, IsPlanFault, halted_by, set_one, turnover_of, versions_by};

use crate::plan::{PartitionPlan, TableAfter, Turnover, plain};
use crate::planner::Planner;
use crate::redo::{partition_pages, plan_redo};
use crate::settling::{settle_table, tidy_table};
use disk_model::Storage;
use lock_table::Table;
use node_parts::StepFault;
use partition_redo::Planned;

/// Plans what becomes of a partition whose table is rebuilt: where the table misses no report, it is
/// redone, served and settled, else it stays as it is.
pub(crate) fn plan_rebuilt<S: Storage>(
    by: &Planner,
    turnover: Turnover,
    table: Table,
    complete: bool,
    s: &mut S,
) -> Result<PartitionPlan, StepFault>
    requires sizes { HasSizes by.now.config (S.pages s.old) (S.logs s.old) (S.rooms s.old) }
    requires me { by.now.me < by.now.config.nodes }
    requires table { IsTableOf by.now.config table }
    ensures planned { (d : Disk) (n : NodeState) (t : Option LockTable) → S.pages s.old ≡ Some d.pages → S.logs s.old ≡ Some d.logs → n.home.config ≡ by.now.config → number_of n ≡ by.now.me → is_complete n.view table.partition (Some (table_of table)) ≡ complete → Plans (plan_rebuilt (turnover_of turnover) d d.pages table.partition n (table_of table)) d t result }
    ensures fits { IfOk result (Fits by.now.config by.now.me table.partition (S.pages s.old) (S.logs s.old)) }
    ensures fault { IfErr result IsPlanFault }
    ensures pages { S.pages s.new ≡ S.pages s.old }
    ensures logs { S.logs s.new ≡ S.logs s.old }
    ensures rooms { S.rooms s.new ≡ S.rooms s.old }
    ensures stops { S.stops s.new ≡ S.stops s.old }
    ensures calm { (l : List (Option ℕ)) → NoneFails (S.failing s.old) by.now.me l → NoneFails (S.failing s.new) by.now.me l }
    ensures quiet { (l : List (Option ℕ)) → NoneFails (S.failing s.old) by.now.me l → halted_by result ≡ None }
    ensures counts { (k : Kind) → S.faults s.old k ≤ S.faults s.new k }
    ensures cause { (k : Kind) → halted_by result ≡ Some k → Rose (S.faults s.old k) (S.faults s.new k) }
{
    let mut table = table;
    if complete {
        return plan_complete(by, turnover, table, s);
    }
    tidy_table(by, &mut table)?;
    Ok(plain(by, turnover, TableAfter::Is(table), None))
}

/// The same of a table that misses no report.
fn plan_complete<S: Storage>(
    by: &Planner,
    turnover: Turnover,
    table: Table,
    s: &mut S,
) -> Result<PartitionPlan, StepFault>
    requires sizes { HasSizes by.now.config (S.pages s.old) (S.logs s.old) (S.rooms s.old) }
    requires me { by.now.me < by.now.config.nodes }
    requires table { IsTableOf by.now.config table }
    ensures planned { (d : Disk) (n : NodeState) (t : Option LockTable) → S.pages s.old ≡ Some d.pages → S.logs s.old ≡ Some d.logs → n.home.config ≡ by.now.config → number_of n ≡ by.now.me → Plans (plan_complete true (turnover_of turnover) d d.pages table.partition n (table_of table)) d t result }
    ensures fits { IfOk result (Fits by.now.config by.now.me table.partition (S.pages s.old) (S.logs s.old)) }
    ensures fault { IfErr result IsPlanFault }
    ensures pages { S.pages s.new ≡ S.pages s.old }
    ensures logs { S.logs s.new ≡ S.logs s.old }
    ensures rooms { S.rooms s.new ≡ S.rooms s.old }
    ensures stops { S.stops s.new ≡ S.stops s.old }
    ensures calm { (l : List (Option ℕ)) → NoneFails (S.failing s.old) by.now.me l → NoneFails (S.failing s.new) by.now.me l }
    ensures quiet { (l : List (Option ℕ)) → NoneFails (S.failing s.old) by.now.me l → halted_by result ≡ None }
    ensures counts { (k : Kind) → S.faults s.old k ≤ S.faults s.new k }
    ensures cause { (k : Kind) → halted_by result ≡ Some k → Rose (S.faults s.old k) (S.faults s.new k) }
{
    let pages = partition_pages(by, table.partition())?;
    let redo = plan_redo(by, &pages, s)?;
    let mut table = table;
    serve(&mut table, &redo);
    let decisions = settle_table(by, &mut table)?;
    Ok(PartitionPlan {
        turnover,
        redo,
        table: TableAfter::Is(table),
        begins: true,
        decisions,
        report: None,
    })
}

/// The pages of a redo and their entries get its versions, and the table is served from then on. It
/// takes no memory.
pub(crate) fn serve(t: &mut Table, redo: &Option<Planned>)
    requires { All (IsPageOf t.old) (map (λ v. v.0) (versions_by redo.now)) }
    ensures table { table_of t.new ≡ serve (fold set_one (table_of t.old) (versions_by redo.now)) }
    ensures place { SamePlace t.old t.new }
{
    match redo {
        None => t.serve(&[]),
        Some(plan) => t.serve(plan.versions()),
    }
}
