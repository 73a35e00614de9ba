ghost use Rattle.std.specs.Prelude.{◌≡◌, ◌≤◌, ◌++◌, ℕ, List, Option, Some, map, length, OnOk, IfErr};
ghost use Rattle.std.specs.Vec.Iter.{into_iter_items, into_iter_len};
ghost use Rattle.pcl_base.specs.Faults.{Rose};
ghost use Rattle.pcl_base.specs.declared.trace.Call.{Call as CallKind};
ghost use Rattle.disk_model.specs.Disk.{HasSizes};
ghost use Rattle.redo_log.specs.Told.{NoneFails};
ghost use Rattle.run_rules.specs.Disk.{Disk};
ghost use Rattle.home.specs.Device.{told_by};
ghost use Rattle.home.specs.Moves.{Lists};
ghost use Rattle.node_rules.specs.DiskCalls.{DiskCall};
ghost use Rattle.node_rules.specs.Work.{for_each};
ghost use Rattle.node_parts.specs.Comes.{Comes, work_of};
ghost use Rattle.node_parts.specs.State.{node_of};
ghost use Rattle.page_owner.specs.Carry.{SameNode, halted_by};
ghost use Rattle.page_owner.specs.Planned.{SameView};
ghost use Rattle.page_owner.specs.Writes.{after_calls};
ghost use Rattle.partition_steps.specs.Carried.{AreTurning, CanCarryEach, IsCarryFault};
ghost use Rattle.partition_steps.specs.Memory.{HasMemoryFor, needs_of_all};
ghost use Rattle.install_steps.specs.Calls.{AreFrom, LeavesCalls, all_calls, places_after};
ghost use Rattle.install_steps.specs.Plans.{carry_seen, seen_plan};

use disk_model::{Call, Storage};
use install_plans::PartitionPlan;
use node_parts::{Outputs, Parts, StepFault};
use partition_steps::{Memory, carry};
use pcl_base::NodeNo;
use std::vec::IntoIter;

/// Carries the plans of partitions out, one after the other, with memory that was taken before: it takes
/// none, and never wants any.
///
/// `Halted` comes where a call of a redo failed, of which a beginning is made then, or where a page of a
/// grant to the node itself couldn't be read; `Differs` where that page has another number or version than
/// it must. The node may only be lost then.
pub(crate) fn carry_rest<S: Storage>(
    parts: &mut Parts,
    plans: IntoIter<(NodeNo, PartitionPlan)>,
    memory: &mut Memory,
    s: &mut S,
    out: &mut Outputs,
) -> Result<(), StepFault>
    requires turning { AreTurning parts.old }
    requires len { into_iter_len plans ≡ length (into_iter_items plans) }
    requires from { AreFrom parts.old.home.config.nodes 0 (into_iter_items plans) }
    requires plans { CanCarryEach parts.old.home.config parts.old.me (S.pages s.old) (S.logs s.old) (into_iter_items plans) }
    requires list { Lists memory.old.list parts.old.home }
    requires sizes { HasSizes parts.old.home.config (S.pages s.old) (S.logs s.old) (S.rooms s.old) }
    requires memory { HasMemoryFor (needs_of_all (into_iter_items plans)) memory.old.stock out.old }
    requires size { parts.old.home.config.size ≤ memory.old.stock.size }
    ensures comes { (d : Disk) (cs : List DiskCall) → S.pages s.old ≡ Some d.pages → S.logs s.old ≡ Some d.logs → Comes (for_each carry_seen (map (seen_plan d (node_of parts.old)) (into_iter_items plans)) (work_of (node_of parts.old) d.pages cs out.old)) result (work_of (node_of parts.new) (after_calls d.pages (all_calls d (into_iter_items plans))) (cs ++ all_calls d (into_iter_items plans)) out.new) }
    ensures made { (d : Disk) → S.pages s.old ≡ Some d.pages → S.logs s.old ≡ Some d.logs → LeavesCalls parts.old.me result (all_calls d (into_iter_items plans)) (told_by (S.pages s.old) (S.logs s.old) (S.stops s.old)) (told_by (S.pages s.new) (S.logs s.new) (S.stops s.new)) }
    ensures turning { AreTurning parts.new }
    ensures places { OnOk result (parts.new.tables.places ≡ places_after (into_iter_items plans) parts.old.tables.places) }
    ensures view { SameView parts.old parts.new }
    ensures same { SameNode parts.old.home parts.new.home }
    ensures fault { IfErr result IsCarryFault }
    ensures sizes { HasSizes parts.old.home.config (S.pages s.new) (S.logs s.new) (S.rooms s.new) }
    ensures logs { S.logs s.new ≡ S.logs s.old }
    ensures rooms { S.rooms s.new ≡ S.rooms s.old }
    ensures calm { (l : List (Option ℕ)) → NoneFails (S.failing s.old) parts.old.me l → NoneFails (S.failing s.new) parts.old.me l }
    ensures quiet { (l : List (Option ℕ)) (k : CallKind) → NoneFails (S.failing s.old) parts.old.me l → halted_by result ≡ Some k → k ≡ Call.Write }
    ensures counts { (k : CallKind) → S.faults s.old k ≤ S.faults s.new k }
    ensures cause { (k : CallKind) → halted_by result ≡ Some k → Rose (S.faults s.old k) (S.faults s.new k) }
{
    let mut plans = plans;
    match plans.next() {
        None => Ok(()),
        Some(first) => {
            let (q, plan) = first;
            match carry(parts, q, plan, memory, s, out) {
                Ok(()) => carry_rest(parts, plans, memory, s, out),
                Err(fault) => Err(fault),
            }
        }
    }
}
