ghost use Rattle.std.specs.Prelude.{◌≡◌, ◌<◌, ◌≤◌, ℕ, List, Option, Some, None, true, false, length, IfOk, IfErr, IfSome, OnOk};
ghost use Rattle.pcl_base.specs.Faults.{Rose};
ghost use Rattle.pcl_base.specs.declared.trace.Call.{Call as Kind};
ghost use Rattle.disk_model.specs.Disk.{HasSizes};
ghost use Rattle.run_rules.specs.Disk.{Disk};
ghost use Rattle.node_rules.specs.LockTable.{LockTable, pages_of};
ghost use Rattle.node_rules.specs.NodeState.{NodeState, number_of};
ghost use Rattle.node_rules.specs.InstallRule.{purge_table};
ghost use Rattle.install_laws.specs.InstallPlans.{Stays as stays, plan_rebuilt, plan_served, plan_settling};
ghost use Rattle.lock_table.specs.Tables.{SamePlace, table_of};
ghost use Rattle.redo_log.specs.Told.{NoneFails};
ghost use Rattle.rebuild.specs.Parts.{IsTableOf};
ghost use Rattle.install_plans.specs.Plans.{Fits, Plans, IsPlanFault, halted_by};
ghost use Rattle.install_plans.specs.Tables.{IsTidy};

use crate::completing::{plan_rebuilt, serve};
use crate::due::Due;
use crate::newer::{lost_nodes, newer_pages};
use crate::plan::{PartitionPlan, TableAfter, Turnover};
use crate::planner::Planner;
use crate::redo::plan_redo;
use crate::settling::settle_table;
use authority_map::View;
use disk_model::Storage;
use lock_table::Table;
use node_parts::StepFault;
use pcl_base::NoMemory;
use rebuild::{missing, purge};

/// Plans a partition that the node keeps and has a table of.
pub(crate) fn plan_kept<S: Storage>(
    by: &Planner,
    t: &Table,
    before: &Option<View>,
    view: &View,
    s: &mut S,
) -> Result<PartitionPlan, StepFault>
    requires sizes { HasSizes by.now.config (S.pages s.old) (S.logs s.old) (S.rooms s.old) }
    requires me { by.now.me < by.now.config.nodes }
    requires table { IsTableOf by.now.config t.now }
    requires before { IfSome before.now (λ v. length v.live ≡ by.now.config.nodes) }
    requires nodes { length view.now.live ≡ by.now.config.nodes }
    ensures planned { (d : Disk) (n : NodeState) (b : Option LockTable) → S.pages s.old ≡ Some d.pages → S.logs s.old ≡ Some d.logs → n.home.config ≡ by.now.config → number_of n ≡ by.now.me → n.view ≡ Some view.now → Plans (plan_served t.now.serving d d.pages before.now view.now t.now.partition n (table_of t.now)) d b result }
    ensures fits { IfOk result (Fits by.now.config by.now.me t.now.partition (S.pages s.old) (S.logs s.old)) }
    ensures fault { IfErr result IsPlanFault }
    ensures pages { S.pages s.new ≡ S.pages s.old }
    ensures logs { S.logs s.new ≡ S.logs s.old }
    ensures rooms { S.rooms s.new ≡ S.rooms s.old }
    ensures stops { S.stops s.new ≡ S.stops s.old }
    ensures calm { (l : List (Option ℕ)) → NoneFails (S.failing s.old) by.now.me l → NoneFails (S.failing s.new) by.now.me l }
    ensures quiet { (l : List (Option ℕ)) → NoneFails (S.failing s.old) by.now.me l → halted_by result ≡ None }
    ensures counts { (k : Kind) → S.faults s.old k ≤ S.faults s.new k }
    ensures cause { (k : Kind) → halted_by result ≡ Some k → Rose (S.faults s.old k) (S.faults s.new k) }
{
    if t.serving() {
        return plan_served(by, t, before, view, s);
    }
    plan_unserved(by, t, view, s)
}

/// Plans a partition that the node keeps and serves: what lost nodes wrote later than the table says
/// is redone, what they had goes, and then the table is settled.
fn plan_served<S: Storage>(
    by: &Planner,
    t: &Table,
    before: &Option<View>,
    view: &View,
    s: &mut S,
) -> Result<PartitionPlan, StepFault>
    requires sizes { HasSizes by.now.config (S.pages s.old) (S.logs s.old) (S.rooms s.old) }
    requires me { by.now.me < by.now.config.nodes }
    requires table { IsTableOf by.now.config t.now }
    requires before { IfSome before.now (λ v. length v.live ≡ by.now.config.nodes) }
    requires nodes { length view.now.live ≡ by.now.config.nodes }
    requires serving { t.now.serving ≡ true }
    ensures planned { (d : Disk) (n : NodeState) (b : Option LockTable) → S.pages s.old ≡ Some d.pages → S.logs s.old ≡ Some d.logs → n.home.config ≡ by.now.config → number_of n ≡ by.now.me → Plans (plan_served true d d.pages before.now view.now t.now.partition n (table_of t.now)) d b result }
    ensures fits { IfOk result (Fits by.now.config by.now.me t.now.partition (S.pages s.old) (S.logs s.old)) }
    ensures fault { IfErr result IsPlanFault }
    ensures pages { S.pages s.new ≡ S.pages s.old }
    ensures logs { S.logs s.new ≡ S.logs s.old }
    ensures rooms { S.rooms s.new ≡ S.rooms s.old }
    ensures stops { S.stops s.new ≡ S.stops s.old }
    ensures calm { (l : List (Option ℕ)) → NoneFails (S.failing s.old) by.now.me l → NoneFails (S.failing s.new) by.now.me l }
    ensures quiet { (l : List (Option ℕ)) → NoneFails (S.failing s.old) by.now.me l → halted_by result ≡ None }
    ensures counts { (k : Kind) → S.faults s.old k ≤ S.faults s.new k }
    ensures cause { (k : Kind) → halted_by result ≡ Some k → Rose (S.faults s.old k) (S.faults s.new k) }
{
    let lost = lost_nodes(by, before, view)?;
    let pages = newer_pages(by, t, &lost, s)?;
    let redo = plan_redo(by, &pages, s)?;
    let mut table = t.copy()?;
    serve(&mut table, &redo);
    let decisions = settle_purged(by, &mut table, view)?;
    Ok(PartitionPlan {
        turnover: Turnover::Stays,
        redo,
        table: TableAfter::Is(table),
        begins: false,
        decisions,
        report: None,
    })
}

/// Takes what lost nodes have out of a served table, and settles it. It answers the decisions.
///
/// After `NoMemory` the table may only be given up.
fn settle_purged(by: &Planner, t: &mut Table, view: &View) -> Result<Vec<Due>, NoMemory>
    requires table { IsTableOf by.now.config t.old }
    requires nodes { length view.now.live ≡ by.now.config.nodes }
    requires serving { t.old.serving ≡ true }
    ensures table { OnOk result (table_of t.new ≡ (plan_settling by.now.me (pages_of t.old.config t.old.partition) (purge_table view.now.live (table_of t.old))).table) }
    ensures decisions { IfOk result (λ dues. dues.items ≡ (plan_settling by.now.me (pages_of t.old.config t.old.partition) (purge_table view.now.live (table_of t.old))).decisions) }
    ensures tidy { OnOk result (IsTidy t.new) }
    ensures place { OnOk result (SamePlace t.old t.new) }
{
    let live = live_flags(by, view)?;
    purge(t, &by.config, live.as_slice())?;
    settle_table(by, t)
}

/// Plans a partition that the node keeps and that is still rebuilt: its table without what lost nodes
/// had, which is served where it misses no report.
fn plan_unserved<S: Storage>(
    by: &Planner,
    t: &Table,
    view: &View,
    s: &mut S,
) -> Result<PartitionPlan, StepFault>
    requires sizes { HasSizes by.now.config (S.pages s.old) (S.logs s.old) (S.rooms s.old) }
    requires me { by.now.me < by.now.config.nodes }
    requires table { IsTableOf by.now.config t.now }
    requires nodes { length view.now.live ≡ by.now.config.nodes }
    requires serving { t.now.serving ≡ false }
    ensures planned { (d : Disk) (n : NodeState) (b : Option LockTable) → S.pages s.old ≡ Some d.pages → S.logs s.old ≡ Some d.logs → n.home.config ≡ by.now.config → number_of n ≡ by.now.me → n.view ≡ Some view.now → Plans (plan_rebuilt stays d d.pages t.now.partition n (purge_table view.now.live (table_of t.now))) d b result }
    ensures fits { IfOk result (Fits by.now.config by.now.me t.now.partition (S.pages s.old) (S.logs s.old)) }
    ensures fault { IfErr result IsPlanFault }
    ensures pages { S.pages s.new ≡ S.pages s.old }
    ensures logs { S.logs s.new ≡ S.logs s.old }
    ensures rooms { S.rooms s.new ≡ S.rooms s.old }
    ensures stops { S.stops s.new ≡ S.stops s.old }
    ensures calm { (l : List (Option ℕ)) → NoneFails (S.failing s.old) by.now.me l → NoneFails (S.failing s.new) by.now.me l }
    ensures quiet { (l : List (Option ℕ)) → NoneFails (S.failing s.old) by.now.me l → halted_by result ≡ None }
    ensures counts { (k : Kind) → S.faults s.old k ≤ S.faults s.new k }
    ensures cause { (k : Kind) → halted_by result ≡ Some k → Rose (S.faults s.old k) (S.faults s.new k) }
{
    let mut table = t.copy()?;
    let live = live_flags(by, view)?;
    purge(&mut table, &by.config, live.as_slice())?;
    let complete = !missing(&table, &by.config, view);
    plan_rebuilt(by, Turnover::Stays, table, complete, s)
}

/// The flags of a view, one for each node.
fn live_flags(by: &Planner, view: &View) -> Result<Vec<bool>, NoMemory>
    requires { length view.now.live ≡ by.now.config.nodes }
    ensures { IfOk result (λ live. live.items ≡ view.now.live) }
{
    let mut live = Vec::new(by.alloc);
    for node in 0..by.config.nodes() as u8 {
        live.push(view.live(node))?;
    }
    Ok(live)
}
