ghost use Rattle.std.specs.Prelude.{◌≡◌, ◌≢◌, ◌≤◌, ◌<◌, ◌++◌, ◌⊎◌, ℕ, List, Option, Some, None, map, OnOk, IfErr, IfSome};
ghost use Rattle.pcl_base.specs.Faults.{Rose};
ghost use Rattle.pcl_base.specs.declared.trace.Call.{Call as CallKind};
ghost use Rattle.disk_model.specs.Disk.{HasSizes, NotLowered};
ghost use Rattle.redo_log.specs.Told.{NoneFails};
ghost use Rattle.run_rules.specs.Disk.{Disk};
ghost use Rattle.home.specs.Device.{told_by};
ghost use Rattle.home.specs.Moves.{Lists};
ghost use Rattle.node_rules.specs.DiskCalls.{DiskCall};
ghost use Rattle.install_laws.specs.InstallPlans.{carry_install};
ghost use Rattle.node_parts.specs.Comes.{Comes, work_of};
ghost use Rattle.node_parts.specs.State.{node_of};
ghost use Rattle.page_owner.specs.Carry.{SameNode, halted_by};
ghost use Rattle.page_owner.specs.Planned.{SameView};
ghost use Rattle.page_owner.specs.Writes.{after_calls};
ghost use Rattle.partition_steps.specs.Carried.{AreTurning, CanCarryEach};
ghost use Rattle.partition_steps.specs.Memory.{HasMemoryFor, needs_of_all};
ghost use Rattle.install_steps.specs.Births.{trim_calls};
ghost use Rattle.install_steps.specs.Calls.{AreFrom, IsWorkFault, LeavesCalls, all_calls, end_of, places_after};
ghost use Rattle.install_steps.specs.Plans.{seen_plan};
ghost use Rattle.install_steps.specs.Ready.{MayWork};

use crate::entering::trim;
use crate::planned::carry_rest;
use disk_model::{Call, Storage};
use install_plans::{Differing, PartitionPlan};
use node_parts::{Outputs, Parts, StepFault};
use partition_steps::Memory;
use pcl_base::NodeNo;

// An install once all is ready and the node is in the view.

/// Trims the torn rest of the node's log, where there is one, and carries the plans out, up to a page that
/// differs. It takes no memory, and never wants any. The node may only be lost after a fault.
pub(crate) fn work_off<S: Storage>(
    parts: &mut Parts,
    keep: Option<u64>,
    plans: Vec<(NodeNo, PartitionPlan)>,
    differs: Option<Differing>,
    memory: Memory,
    s: &mut S,
    out: &mut Outputs,
) -> Result<(), StepFault>
    requires may { MayWork parts.old keep plans.items differs memory.list memory.stock (S.pages s.old) (S.logs s.old) out.old }
    requires sizes { HasSizes parts.old.home.config (S.pages s.old) (S.logs s.old) (S.rooms s.old) }
    ensures comes { (d : Disk) (cs : List DiskCall) → S.pages s.old ≡ Some d.pages → S.logs s.old ≡ Some d.logs → Comes (carry_install (record { plans = map (seen_plan d (node_of parts.old)) plans.items; differs = differs }) (work_of (node_of parts.old) d.pages (cs ++ trim_calls keep) out.old)) result (work_of (node_of parts.new) (after_calls d.pages (trim_calls keep ++ all_calls d plans.items)) (cs ++ (trim_calls keep ++ all_calls d plans.items)) out.new) }
    ensures made { (d : Disk) → S.pages s.old ≡ Some d.pages → S.logs s.old ≡ Some d.logs → LeavesCalls parts.old.me result (trim_calls keep ++ all_calls d plans.items) (told_by (S.pages s.old) (S.logs s.old) (S.stops s.old)) (told_by (S.pages s.new) (S.logs s.new) (S.stops s.new)) }
    ensures turning { AreTurning parts.new }
    ensures places { OnOk result (parts.new.tables.places ≡ places_after plans.items parts.old.tables.places) }
    ensures whole { OnOk result (differs ≡ None) }
    ensures view { SameView parts.old parts.new }
    ensures same { SameNode parts.old.home parts.new.home }
    ensures fault { IfErr result IsWorkFault }
    ensures sizes { HasSizes parts.old.home.config (S.pages s.new) (S.logs s.new) (S.rooms s.new) }
    ensures rooms { NotLowered (S.rooms s.old) (S.rooms s.new) }
    ensures calm { (l : List (Option ℕ)) → NoneFails (S.failing s.old) parts.old.me l → NoneFails (S.failing s.new) parts.old.me l }
    ensures quiet { (l : List (Option ℕ)) (k : CallKind) → NoneFails (S.failing s.old) parts.old.me l → halted_by result ≡ Some k → (k ≡ Call.Write) ⊎ (k ≡ Call.Trim) }
    ensures counts { (k : CallKind) → S.faults s.old k ≤ S.faults s.new k }
    ensures cause { (k : CallKind) → halted_by result ≡ Some k → Rose (S.faults s.old k) (S.faults s.new k) }
{
    match trim(parts, keep, s) {
        Err(fault) => Err(fault),
        Ok(()) => carry_to_end(parts, plans, differs, memory, s, out),
    }
}

/// Carries the plans out, up to a page that differs. It takes no memory, and never wants any.
fn carry_to_end<S: Storage>(
    parts: &mut Parts,
    plans: Vec<(NodeNo, PartitionPlan)>,
    differs: Option<Differing>,
    memory: Memory,
    s: &mut S,
    out: &mut Outputs,
) -> Result<(), StepFault>
    requires turning { AreTurning parts.old }
    requires from { AreFrom parts.old.home.config.nodes 0 plans.items }
    requires plans { CanCarryEach parts.old.home.config parts.old.me (S.pages s.old) (S.logs s.old) plans.items }
    requires differs { IfSome differs (λ x. x.expected ≢ x.found) }
    requires list { Lists memory.list parts.old.home }
    requires sizes { HasSizes parts.old.home.config (S.pages s.old) (S.logs s.old) (S.rooms s.old) }
    requires memory { HasMemoryFor (needs_of_all plans.items) memory.stock out.old }
    requires size { parts.old.home.config.size ≤ memory.stock.size }
    ensures comes { (d : Disk) (cs : List DiskCall) → S.pages s.old ≡ Some d.pages → S.logs s.old ≡ Some d.logs → Comes (carry_install (record { plans = map (seen_plan d (node_of parts.old)) plans.items; differs = differs }) (work_of (node_of parts.old) d.pages cs out.old)) result (work_of (node_of parts.new) (after_calls d.pages (all_calls d plans.items)) (cs ++ all_calls d plans.items) out.new) }
    ensures made { (d : Disk) → S.pages s.old ≡ Some d.pages → S.logs s.old ≡ Some d.logs → LeavesCalls parts.old.me result (all_calls d plans.items) (told_by (S.pages s.old) (S.logs s.old) (S.stops s.old)) (told_by (S.pages s.new) (S.logs s.new) (S.stops s.new)) }
    ensures turning { AreTurning parts.new }
    ensures places { OnOk result (parts.new.tables.places ≡ places_after plans.items parts.old.tables.places) }
    ensures whole { OnOk result (differs ≡ None) }
    ensures view { SameView parts.old parts.new }
    ensures same { SameNode parts.old.home parts.new.home }
    ensures fault { IfErr result IsWorkFault }
    ensures sizes { HasSizes parts.old.home.config (S.pages s.new) (S.logs s.new) (S.rooms s.new) }
    ensures logs { S.logs s.new ≡ S.logs s.old }
    ensures rooms { S.rooms s.new ≡ S.rooms s.old }
    ensures calm { (l : List (Option ℕ)) → NoneFails (S.failing s.old) parts.old.me l → NoneFails (S.failing s.new) parts.old.me l }
    ensures quiet { (l : List (Option ℕ)) (k : CallKind) → NoneFails (S.failing s.old) parts.old.me l → halted_by result ≡ Some k → k ≡ Call.Write }
    ensures counts { (k : CallKind) → S.faults s.old k ≤ S.faults s.new k }
    ensures cause { (k : CallKind) → halted_by result ≡ Some k → Rose (S.faults s.old k) (S.faults s.new k) }
{
    let mut memory = memory;
    match carry_rest(parts, plans.into_iter(), &mut memory, s, out) {
        Ok(()) => end(differs),
        Err(fault) => Err(fault),
    }
}

/// How an install ends whose plans are carried out.
fn end(differs: Option<Differing>) -> Result<(), StepFault>
    requires differs { IfSome differs (λ x. x.expected ≢ x.found) }
    ensures end { result ≡ end_of differs }
    ensures whole { OnOk result (differs ≡ None) }
    ensures fault { IfErr result IsWorkFault }
    ensures never { halted_by result ≡ None }
{
    match differs {
        None => Ok(()),
        Some(at) => Err(StepFault::Differs {
            page: at.page,
            expected: at.expected,
            found: at.found,
        }),
    }
}
