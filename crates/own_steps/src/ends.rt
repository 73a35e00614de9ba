ghost use Rattle.std.specs.Prelude.{◌≡◌, ◌≤◌, ℕ, List, Option, Some, None, IfErr, Err};
ghost use Rattle.pcl_base.specs.Faults.{Rose};
ghost use Rattle.pcl_base.specs.declared.reply.Reply.TheVariants.{Aborted as aborted};
ghost use Rattle.pcl_base.specs.declared.trace.Call.{Call as CallKind};
ghost use Rattle.disk_model.specs.Disk.{HasSizes};
ghost use Rattle.redo_log.specs.Told.{NoneFails};
ghost use Rattle.node_rules.specs.DiskCalls.{DiskCall};
ghost use Rattle.node_rules.specs.EndRule.{abort};
ghost use Rattle.node_rules.specs.NodeState.{Abort as aborts};
ghost use Rattle.node_rules.specs.OwnerRule.{end_work};
ghost use Rattle.node_rules.specs.Refusals.{refusal};
ghost use Rattle.node_rules.specs.Work.{work_of_home};
ghost use Rattle.node_parts.specs.Comes.{Comes, work_of};
ghost use Rattle.node_parts.specs.State.{AreParts, node_of};
ghost use Rattle.node_parts.specs.declared.fault.StepFault.TheVariants.{NoMemory as no_memory};
ghost use Rattle.page_owner.specs.Carry.{HasSame, IsTakeFault, SameNode, halted_by};

use crate::ready::prepare_ends;
use crate::rooms::give_up_rooms;
use crate::tell_all::tell_all;
use disk_model::Storage;
use node_parts::{Outputs, Parts, StepFault};
use pcl_base::{Reply, TxId};

/// Gives a transaction up, which the rules don't refuse: `Aborted`, and then what the owners of its
/// pages are told. All memory is taken before the first change: `NoMemory` leaves all as before. It
/// makes no changing call; `Halted` comes where a page of a later grant couldn't be read, and `Differs`
/// where that has another number or version than it must.
pub fn abort<S: Storage>(
    parts: &mut Parts,
    tx: TxId,
    s: &mut S,
    out: &mut Outputs,
) -> Result<(), StepFault>
    requires parts { AreParts parts.old }
    requires none { refusal (node_of parts.old) (aborts tx) ≡ None }
    requires sizes { HasSizes parts.old.home.config (S.pages s.old) (S.logs s.old) (S.rooms s.old) }
    ensures comes { (ps : List (List ℕ)) (cs : List DiskCall) → S.pages s.old ≡ Some ps → Comes (end_work (aborted tx) tx (work_of (node_of parts.old) ps cs out.old) (abort tx (work_of_home (work_of (node_of parts.old) ps cs out.old)))) result (work_of (node_of parts.new) ps cs out.new) }
    ensures parts { AreParts parts.new }
    ensures node { result ≡ Err no_memory → node_of parts.new ≡ node_of parts.old }
    ensures lists { result ≡ Err no_memory → HasSame out.old out.new }
    ensures same { SameNode parts.old.home parts.new.home }
    ensures fault { IfErr result IsTakeFault }
    ensures pages { S.pages s.new ≡ S.pages s.old }
    ensures logs { S.logs s.new ≡ S.logs s.old }
    ensures rooms { S.rooms s.new ≡ S.rooms s.old }
    ensures stops { S.stops s.new ≡ S.stops s.old }
    ensures calm { (l : List (Option ℕ)) → NoneFails (S.failing s.old) parts.old.me l → NoneFails (S.failing s.new) parts.old.me l }
    ensures quiet { (l : List (Option ℕ)) → NoneFails (S.failing s.old) parts.old.me l → halted_by result ≡ None }
    ensures counts { (k : CallKind) → S.faults s.old k ≤ S.faults s.new k }
    ensures cause { (k : CallKind) → halted_by result ≡ Some k → Rose (S.faults s.old k) (S.faults s.new k) }
{
    let (plans, stock) = prepare_ends(parts, tx, false, out)?;
    match parts.home.abort(tx) {
        Err(_) => {
            give_up_rooms(parts, plans.into_iter());
            Err(StepFault::NoMemory)
        }
        Ok(ends) => tell_all(parts, tx, Reply::Aborted { tx }, ends, plans, stock, s, out),
    }
}
