ghost use Rattle.std.specs.Prelude.{◌≡◌, ◌≤◌, ◌++◌, ℕ, List, Some, None, IfErr, Err};
ghost use Rattle.pcl_base.specs.Faults.{Rose};
ghost use Rattle.pcl_base.specs.declared.trace.Call.{Call as CallKind};
ghost use Rattle.disk_model.specs.Disk.{HasSizes};
ghost use Rattle.home.specs.Device.{told_by};
ghost use Rattle.node_rules.specs.DiskCalls.{DiskCall};
ghost use Rattle.node_rules.specs.NodeState.{Evict as evicts, Flush as flushes};
ghost use Rattle.node_rules.specs.NodeStep.{evict_copy, flush_copy};
ghost use Rattle.node_rules.specs.Refusals.{refusal};
ghost use Rattle.node_rules.specs.Work.{Goes};
ghost use Rattle.node_parts.specs.Comes.{Comes, work_of};
ghost use Rattle.node_parts.specs.State.{AreParts, node_of};
ghost use Rattle.node_parts.specs.declared.fault.StepFault.TheVariants.{NoMemory as no_memory};
ghost use Rattle.page_owner.specs.Carry.{SameNode, HasSame, halted_by};
ghost use Rattle.page_owner.specs.Writes.{after_calls};
ghost use Rattle.own_steps.specs.Calls.{LeavesCalls, IsWriteFault, evict_calls, flush_calls};

use crate::halt::halt;
use disk_model::Storage;
use node_parts::{Outputs, Parts, StepFault};
use pcl_base::{PageNo, Reply};

/// Takes the page's copy out of the buffer, which the rules don't refuse: it is written where it is
/// dirty, and leaves. `NoMemory` leaves all as before, and `Halted` comes where the write failed.
pub fn evict<S: Storage>(
    parts: &mut Parts,
    page: PageNo,
    s: &mut S,
    out: &mut Outputs,
) -> Result<(), StepFault>
    requires parts { AreParts parts.old }
    requires none { refusal (node_of parts.old) (evicts page) ≡ None }
    requires sizes { HasSizes parts.old.home.config (S.pages s.old) (S.logs s.old) (S.rooms s.old) }
    ensures comes { (ps : List (List ℕ)) (cs : List DiskCall) → Comes (Goes (evict_copy page (work_of (node_of parts.old) ps cs out.old))) result (work_of (node_of parts.new) (after_calls ps (evict_calls page parts.old.home)) (cs ++ evict_calls page parts.old.home) out.new) }
    ensures made { LeavesCalls parts.old.home.txs.node result (evict_calls page parts.old.home) (told_by (S.pages s.old) (S.logs s.old) (S.stops s.old)) (told_by (S.pages s.new) (S.logs s.new) (S.stops s.new)) }
    ensures parts { AreParts parts.new }
    ensures same { SameNode parts.old.home parts.new.home }
    ensures node { result ≡ Err no_memory → parts.new ≡ parts.old }
    ensures lists { result ≡ Err no_memory → HasSame out.old out.new }
    ensures fault { IfErr result IsWriteFault }
    ensures sizes { HasSizes parts.old.home.config (S.pages s.new) (S.logs s.new) (S.rooms s.new) }
    ensures rooms { S.rooms s.new ≡ S.rooms s.old }
    ensures failing { S.failing s.new ≡ S.failing s.old }
    ensures counts { (k : CallKind) → S.faults s.old k ≤ S.faults s.new k }
    ensures cause { (k : CallKind) → halted_by result ≡ Some k → Rose (S.faults s.old k) (S.faults s.new k) }
{
    out.reserve(1, 0)?;
    match parts.home.evict(page, s) {
        Ok(()) => {
            out.reply(Reply::Evicted);
            Ok(())
        }
        Err(fault) => Err(halt(fault)),
    }
}

/// Writes the page's copy to disk where it is dirty, which the rules don't refuse; it stays and is
/// clean. `NoMemory` leaves all as before, and `Halted` comes where the write failed.
pub fn flush<S: Storage>(
    parts: &mut Parts,
    page: PageNo,
    s: &mut S,
    out: &mut Outputs,
) -> Result<(), StepFault>
    requires parts { AreParts parts.old }
    requires none { refusal (node_of parts.old) (flushes page) ≡ None }
    requires sizes { HasSizes parts.old.home.config (S.pages s.old) (S.logs s.old) (S.rooms s.old) }
    ensures comes { (ps : List (List ℕ)) (cs : List DiskCall) → Comes (Goes (flush_copy page (work_of (node_of parts.old) ps cs out.old))) result (work_of (node_of parts.new) (after_calls ps (flush_calls page parts.old.home)) (cs ++ flush_calls page parts.old.home) out.new) }
    ensures made { LeavesCalls parts.old.home.txs.node result (flush_calls page parts.old.home) (told_by (S.pages s.old) (S.logs s.old) (S.stops s.old)) (told_by (S.pages s.new) (S.logs s.new) (S.stops s.new)) }
    ensures parts { AreParts parts.new }
    ensures same { SameNode parts.old.home parts.new.home }
    ensures node { result ≡ Err no_memory → parts.new ≡ parts.old }
    ensures lists { result ≡ Err no_memory → HasSame out.old out.new }
    ensures fault { IfErr result IsWriteFault }
    ensures sizes { HasSizes parts.old.home.config (S.pages s.new) (S.logs s.new) (S.rooms s.new) }
    ensures rooms { S.rooms s.new ≡ S.rooms s.old }
    ensures failing { S.failing s.new ≡ S.failing s.old }
    ensures counts { (k : CallKind) → S.faults s.old k ≤ S.faults s.new k }
    ensures cause { (k : CallKind) → halted_by result ≡ Some k → Rose (S.faults s.old k) (S.faults s.new k) }
{
    out.reserve(1, 0)?;
    match parts.home.flush(page, s) {
        Ok(()) => {
            out.reply(Reply::Flushed);
            Ok(())
        }
        Err(fault) => Err(halt(fault)),
    }
}
