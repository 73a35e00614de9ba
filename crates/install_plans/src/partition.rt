ghost use Rattle.std.specs.Prelude.{◌≡◌, ◌<◌, ◌≤◌, ◌==◌, ℕ, List, Option, Some, None, length, IfOk, IfErr, IfSome};
ghost use Rattle.pcl_base.specs.Faults.{Rose};
ghost use Rattle.pcl_base.specs.declared.trace.Call.{Call as Kind};
ghost use Rattle.disk_model.specs.Disk.{HasSizes};
ghost use Rattle.run_rules.specs.Disk.{Disk};
ghost use Rattle.node_rules.specs.NodeState.{table_at};
ghost use Rattle.node_rules.specs.InstallRule.{in_view, owned_before};
ghost use Rattle.install_laws.specs.InstallPlans.{plan_kept, plan_partition};
ghost use Rattle.node_parts.specs.State.{AreParts, node_of};
ghost use Rattle.redo_log.specs.Told.{NoneFails};
ghost use Rattle.install_plans.specs.Plans.{Fits, IsPlannerOf, Plans, IsPlanFault, halted_by};

use crate::getting::plan_get;
use crate::keeping::plan_kept;
use crate::leaving::plan_left;
use crate::plan::{PartitionPlan, untouched};
use crate::planner::Planner;
use authority_map::View;
use disk_model::Storage;
use node_parts::{Parts, StepFault};
use pcl_base::NodeNo;

/// Plans what the install of a view does with a partition, with nothing changed yet.
pub(crate) fn plan_partition<S: Storage>(
    by: &Planner,
    parts: &Parts,
    view: &View,
    q: NodeNo,
    s: &mut S,
) -> Result<PartitionPlan, StepFault>
    requires sizes { HasSizes by.now.config (S.pages s.old) (S.logs s.old) (S.rooms s.old) }
    requires parts { AreParts parts.now }
    requires by { IsPlannerOf parts.now by.now }
    requires nodes { length view.now.live ≡ by.now.config.nodes }
    requires q { q < by.now.config.nodes }
    ensures planned { (d : Disk) → S.pages s.old ≡ Some d.pages → S.logs s.old ≡ Some d.logs → Plans (plan_partition d d.pages parts.now.view view.now q (in_view view.now (node_of parts.now))) d (table_at (node_of parts.now) q) result }
    ensures fits { IfOk result (Fits by.now.config by.now.me q (S.pages s.old) (S.logs s.old)) }
    ensures fault { IfErr result IsPlanFault }
    ensures pages { S.pages s.new ≡ S.pages s.old }
    ensures logs { S.logs s.new ≡ S.logs s.old }
    ensures rooms { S.rooms s.new ≡ S.rooms s.old }
    ensures stops { S.stops s.new ≡ S.stops s.old }
    ensures calm { (l : List (Option ℕ)) → NoneFails (S.failing s.old) by.now.me l → NoneFails (S.failing s.new) by.now.me l }
    ensures quiet { (l : List (Option ℕ)) → NoneFails (S.failing s.old) by.now.me l → halted_by result ≡ None }
    ensures counts { (k : Kind) → S.faults s.old k ≤ S.faults s.new k }
    ensures cause { (k : Kind) → halted_by result ≡ Some k → Rose (S.faults s.old k) (S.faults s.new k) }
{
    let own = view.owner(q) == by.me;
    let new = view.since(q) == view.epoch();
    if own {
        if new {
            return plan_get(by, &parts.home, view, q, s);
        }
        return plan_own(by, parts, view, q, s);
    }
    if new {
        let owned = was_owner(&parts.view, q, by.me);
        return Ok(plan_left(by, &parts.home, q, view.owner(q), owned)?);
    }
    Ok(untouched(by))
}

/// Plans a partition that the node keeps, where it has a table of it.
fn plan_own<S: Storage>(
    by: &Planner,
    parts: &Parts,
    view: &View,
    q: NodeNo,
    s: &mut S,
) -> Result<PartitionPlan, StepFault>
    requires sizes { HasSizes by.now.config (S.pages s.old) (S.logs s.old) (S.rooms s.old) }
    requires parts { AreParts parts.now }
    requires by { IsPlannerOf parts.now by.now }
    requires nodes { length view.now.live ≡ by.now.config.nodes }
    requires q { q < by.now.config.nodes }
    ensures planned { (d : Disk) → S.pages s.old ≡ Some d.pages → S.logs s.old ≡ Some d.logs → Plans (plan_kept (table_at (node_of parts.now) q) d d.pages parts.now.view view.now q (in_view view.now (node_of parts.now))) d (table_at (node_of parts.now) q) result }
    ensures fits { IfOk result (Fits by.now.config by.now.me q (S.pages s.old) (S.logs s.old)) }
    ensures fault { IfErr result IsPlanFault }
    ensures pages { S.pages s.new ≡ S.pages s.old }
    ensures logs { S.logs s.new ≡ S.logs s.old }
    ensures rooms { S.rooms s.new ≡ S.rooms s.old }
    ensures stops { S.stops s.new ≡ S.stops s.old }
    ensures calm { (l : List (Option ℕ)) → NoneFails (S.failing s.old) by.now.me l → NoneFails (S.failing s.new) by.now.me l }
    ensures quiet { (l : List (Option ℕ)) → NoneFails (S.failing s.old) by.now.me l → halted_by result ≡ None }
    ensures counts { (k : Kind) → S.faults s.old k ≤ S.faults s.new k }
    ensures cause { (k : Kind) → halted_by result ≡ Some k → Rose (S.faults s.old k) (S.faults s.new k) }
{
    match parts.tables.at(q) {
        None => Ok(untouched(by)),
        Some(table) => plan_kept(by, table, &parts.view, view, s),
    }
}

/// Whether a node owned a partition in a view, if there was one.
fn was_owner(before: &Option<View>, q: NodeNo, me: NodeNo) -> bool
    requires { IfSome before.now (λ v. q < length v.live) }
    ensures { result ≡ owned_before before.now q me }
{
    match before {
        None => false,
        Some(view) => view.owner(q) == me,
    }
}
