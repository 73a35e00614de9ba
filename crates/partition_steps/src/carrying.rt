ghost use Rattle.std.specs.Prelude.{◌≡◌, ◌≢◌, ◌≤◌, ◌<◌, ◌+◌, ◌++◌, ℕ, List, Option, Some, None, slice_set, OnOk, IfErr};
ghost use Rattle.pcl_base.specs.Faults.{Rose};
ghost use Rattle.pcl_base.specs.declared.trace.Call.{Call as CallKind};
ghost use Rattle.disk_model.specs.Disk.{HasSizes};
ghost use Rattle.redo_log.specs.Told.{NoneFails};
ghost use Rattle.run_rules.specs.Disk.{Disk};
ghost use Rattle.home.specs.Device.{told_by};
ghost use Rattle.home.specs.Moves.{Lists};
ghost use Rattle.install_laws.specs.InstallPlans.{carry_plan};
ghost use Rattle.node_rules.specs.DiskCalls.{DiskCall};
ghost use Rattle.node_rules.specs.NodeState.{table_at};
ghost use Rattle.node_parts.specs.Comes.{Comes, work_of};
ghost use Rattle.node_parts.specs.State.{node_of};
ghost use Rattle.node_parts.specs.Tables.{place_at};
ghost use Rattle.install_plans.specs.Plans.{plan_of};
ghost use Rattle.page_owner.specs.Carry.{SameNode, halted_by};
ghost use Rattle.page_owner.specs.Planned.{SameView};
ghost use Rattle.page_owner.specs.Writes.{after_calls};
ghost use Rattle.partition_steps.specs.Carried.{AreTurning, CanCarry, IsCarryFault, LeavesWrites, place_after, plan_calls};
ghost use Rattle.partition_steps.specs.Memory.{HasMemoryFor, UsesAtMost, needs_of};
ghost use Rattle.partition_steps.specs.Stays.{StaysFor};

use crate::finish::finish;
use crate::memory::Memory;
use crate::redo::write_redo;
use crate::turn::turn;
use disk_model::{Call, Storage};
use install_plans::PartitionPlan;
use node_parts::{Outputs, Parts, StepFault};
use pcl_base::NodeNo;

/// Carries the plan of a partition out, with memory that was taken before: it takes none, and never wants
/// any. What the home has of the partition is turned over, redo's pages are written, the table is put, and
/// then `Serving` is replied where the partition begins to be served, the decisions are carried out in
/// their order, and the report is sent. The plans of other partitions stay as they are.
///
/// `Halted` comes where a call of the redo failed, of which a beginning is made then, or where a page of a
/// grant to the node itself couldn't be read; `Differs` where that page has another number or version than
/// it must. The node may only be lost then.
pub fn carry<S: Storage>(
    parts: &mut Parts,
    q: NodeNo,
    plan: PartitionPlan,
    memory: &mut Memory,
    s: &mut S,
    out: &mut Outputs,
) -> Result<(), StepFault>
    requires turning { AreTurning parts.old }
    requires q { q < parts.old.home.config.nodes }
    requires plan { CanCarry parts.old.home.config parts.old.me q (S.pages s.old) (S.logs s.old) plan }
    requires list { Lists memory.old.list parts.old.home }
    requires sizes { HasSizes parts.old.home.config (S.pages s.old) (S.logs s.old) (S.rooms s.old) }
    requires memory { HasMemoryFor (needs_of plan) memory.old.stock out.old }
    requires size { parts.old.home.config.size ≤ memory.old.stock.size }
    ensures comes { (d : Disk) (cs : List DiskCall) → S.pages s.old ≡ Some d.pages → S.logs s.old ≡ Some d.logs → Comes (carry_plan q (plan_of d (table_at (node_of parts.old) q) plan) (work_of (node_of parts.old) d.pages cs out.old)) result (work_of (node_of parts.new) (after_calls d.pages (plan_calls d plan)) (cs ++ plan_calls d plan) out.new) }
    ensures made { (d : Disk) → S.pages s.old ≡ Some d.pages → S.logs s.old ≡ Some d.logs → LeavesWrites parts.old.me result (plan_calls d plan) (told_by (S.pages s.old) (S.logs s.old) (S.stops s.old)) (told_by (S.pages s.new) (S.logs s.new) (S.stops s.new)) }
    ensures done { OnOk result ((d : Disk) → S.pages s.old ≡ Some d.pages → S.logs s.old ≡ Some d.logs → S.pages s.new ≡ Some (after_calls d.pages (plan_calls d plan))) }
    ensures others { (r : ℕ) → r ≢ q → StaysFor parts.old.home.config r (S.pages s.old) (S.logs s.old) (S.pages s.new) (S.logs s.new) }
    ensures turning { AreTurning parts.new }
    ensures places { OnOk result (parts.new.tables.places ≡ slice_set parts.old.tables.places q (place_after plan.table (place_at parts.old.tables.places q))) }
    ensures view { SameView parts.old parts.new }
    ensures same { SameNode parts.old.home parts.new.home }
    ensures list { memory.new.list ≡ memory.old.list }
    ensures listed { Lists memory.new.list parts.new.home }
    ensures used { OnOk result (UsesAtMost (needs_of plan) memory.old.stock memory.new.stock out.old out.new) }
    ensures fault { IfErr result IsCarryFault }
    ensures sizes { HasSizes parts.old.home.config (S.pages s.new) (S.logs s.new) (S.rooms s.new) }
    ensures logs { S.logs s.new ≡ S.logs s.old }
    ensures rooms { S.rooms s.new ≡ S.rooms s.old }
    ensures calm { (l : List (Option ℕ)) → NoneFails (S.failing s.old) parts.old.me l → NoneFails (S.failing s.new) parts.old.me l }
    ensures quiet { (l : List (Option ℕ)) (k : CallKind) → NoneFails (S.failing s.old) parts.old.me l → halted_by result ≡ Some k → k ≡ Call.Write }
    ensures counts { (k : CallKind) → S.faults s.old k ≤ S.faults s.new k }
    ensures cause { (k : CallKind) → halted_by result ≡ Some k → Rose (S.faults s.old k) (S.faults s.new k) }
{
    let mut plan = plan;
    turn(&mut parts.home, plan.turnover, &memory.list, q);
    write_redo(&mut parts.home, plan.redo.take(), s)?;
    finish(parts, q, plan, &mut memory.stock, s, out)
}
