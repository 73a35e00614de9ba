ghost use Rattle.std.specs.Prelude.{◌≡◌, ◌<◌, ◌≤◌, ℕ, List, Option, Some, None, length, IfOk, IfErr};
ghost use Rattle.std.specs.List.{AllByRecursion};
ghost use Rattle.pcl_base.specs.Faults.{Rose};
ghost use Rattle.pcl_base.specs.declared.trace.Call.{Call as Kind};
ghost use Rattle.disk_model.specs.Disk.{HasSizes};
ghost use Rattle.run_rules.specs.Disk.{Disk};
ghost use Rattle.node_rules.specs.NodeState.{table_at};
ghost use Rattle.node_rules.specs.InstallRule.{in_view};
ghost use Rattle.install_laws.specs.InstallPlans.{plan_install, plan_report};
ghost use Rattle.node_parts.specs.State.{AreParts, node_of};
ghost use Rattle.redo_log.specs.Told.{NoneFails};
ghost use Rattle.install_plans.specs.Plans.{Fits, IsPlannerOf, NamesOwn, Plans, IsPlanFault, halted_by};
ghost use Rattle.install_plans.specs.Installs.{FitsEach, ended_by, install_of};

use crate::gathering::plan_gathered;
use crate::partition::plan_partition;
use crate::plan::{Differing, InstallPlan, PartitionPlan, untouched};
use crate::planner::Planner;
use authority_map::View;
use disk_model::Storage;
use node_parts::{Parts, StepFault};
use pcl_base::{NodeNo, Report};

/// Plans the install of a view, partition by partition, up to the first of which a page differs, with
/// nothing changed yet. The plans are those of the rules for the node once it is in the view; its birth
/// there changes none of them, as `births_change_no_plan` says.
///
/// `Halted` comes only where the storage's count of that kind of call rose, and that is a read of a
/// page or of a log; `NoMemory` where memory is refused.
pub fn plan_install<S: Storage>(
    parts: &Parts,
    view: &View,
    s: &mut S,
) -> Result<InstallPlan, StepFault>
    requires sizes { HasSizes parts.now.home.config (S.pages s.old) (S.logs s.old) (S.rooms s.old) }
    requires parts { AreParts parts.now }
    requires nodes { length view.now.live ≡ parts.now.home.config.nodes }
    ensures planned { (d : Disk) → S.pages s.old ≡ Some d.pages → S.logs s.old ≡ Some d.logs → IfOk result (λ p. plan_install d d.pages parts.now.view view.now (in_view view.now (node_of parts.now)) ≡ install_of d (node_of parts.now) p) }
    ensures fits { IfOk result (FitsEach parts.now.home.config parts.now.me (S.pages s.old) (S.logs s.old)) }
    ensures fault { IfErr result IsPlanFault }
    ensures pages { S.pages s.new ≡ S.pages s.old }
    ensures logs { S.logs s.new ≡ S.logs s.old }
    ensures rooms { S.rooms s.new ≡ S.rooms s.old }
    ensures stops { S.stops s.new ≡ S.stops s.old }
    ensures calm { (l : List (Option ℕ)) → NoneFails (S.failing s.old) parts.now.me l → NoneFails (S.failing s.new) parts.now.me l }
    ensures quiet { (l : List (Option ℕ)) → NoneFails (S.failing s.old) parts.now.me l → halted_by result ≡ None }
    ensures counts { (k : Kind) → S.faults s.old k ≤ S.faults s.new k }
    ensures cause { (k : Kind) → halted_by result ≡ Some k → Rose (S.faults s.old k) (S.faults s.new k) }
{
    let by = planner_of(parts);
    let mut plans = Vec::new(parts.alloc);
    for q in 0..by.config.nodes() as u8 {
        match plan_partition(&by, parts, view, q, s) {
            Ok(plan) => plans.push((q, plan))?,
            Err(fault) => return ended(plans, fault),
        }
    }
    Ok(InstallPlan {
        plans,
        differs: None,
    })
}

/// How the planning ends at a partition that can't be planned: where a page differs, the plans before
/// are the ones that count.
fn ended(plans: Vec<(NodeNo, PartitionPlan)>, fault: StepFault) -> Result<InstallPlan, StepFault>
    ensures { result ≡ ended_by plans fault }
{
    match fault {
        StepFault::Differs {
            page,
            expected,
            found,
        } => {
            let differs = Some(Differing {
                page,
                expected,
                found,
            });
            Ok(InstallPlan { plans, differs })
        }
        StepFault::NoMemory => Err(StepFault::NoMemory),
        StepFault::Halted { call, kept } => Err(StepFault::Halted { call, kept }),
    }
}

/// Plans what a report that arrives does with its partition, with nothing changed yet: where the
/// node rebuilds the partition, its table with what the report lists, which is served where it
/// misses no further report.
///
/// `Halted` comes only where the storage's count of that kind of call rose, and that is a read of a
/// page or of a log. `Differs` names the first of the partition's pages whose stored number is
/// neither 0 nor the page's number plus one. `NoMemory` comes where memory is refused.
pub fn plan_report<S: Storage>(
    parts: &Parts,
    from: NodeNo,
    report: &Report,
    s: &mut S,
) -> Result<PartitionPlan, StepFault>
    requires sizes { HasSizes parts.now.home.config (S.pages s.old) (S.logs s.old) (S.rooms s.old) }
    requires parts { AreParts parts.now }
    requires from { from < parts.now.home.config.nodes }
    requires report { NamesOwn parts.now.home.config report.now }
    ensures planned { (d : Disk) → S.pages s.old ≡ Some d.pages → S.logs s.old ≡ Some d.logs → Plans (plan_report d d.pages from report.now (node_of parts.now)) d (table_at (node_of parts.now) report.now.partition) result }
    ensures fits { IfOk result (Fits parts.now.home.config parts.now.me report.now.partition (S.pages s.old) (S.logs s.old)) }
    ensures fault { IfErr result IsPlanFault }
    ensures pages { S.pages s.new ≡ S.pages s.old }
    ensures logs { S.logs s.new ≡ S.logs s.old }
    ensures rooms { S.rooms s.new ≡ S.rooms s.old }
    ensures stops { S.stops s.new ≡ S.stops s.old }
    ensures calm { (l : List (Option ℕ)) → NoneFails (S.failing s.old) parts.now.me l → NoneFails (S.failing s.new) parts.now.me l }
    ensures quiet { (l : List (Option ℕ)) → NoneFails (S.failing s.old) parts.now.me l → halted_by result ≡ None }
    ensures counts { (k : Kind) → S.faults s.old k ≤ S.faults s.new k }
    ensures cause { (k : Kind) → halted_by result ≡ Some k → Rose (S.faults s.old k) (S.faults s.new k) }
{
    let by = planner_of(parts);
    let Some(view) = &parts.view else {
        return Ok(untouched(&by));
    };
    let Some(table) = parts.tables.at(report.partition) else {
        return Ok(untouched(&by));
    };
    if table.serving() {
        return Ok(untouched(&by));
    }
    plan_gathered(&by, table, from, report, view, s)
}

/// Who plans.
fn planner_of(parts: &Parts) -> Planner
    ensures { IsPlannerOf parts.now result }
{
    Planner {
        alloc: parts.alloc,
        config: *parts.home.config(),
        me: parts.me,
    }
}
