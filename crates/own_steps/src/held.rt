ghost use Rattle.std.specs.Prelude.{◌≡◌, ◌≤◌, ◌++◌, ℕ, List, Some, None, true, IfErr, Err};
ghost use Rattle.pcl_base.specs.Faults.{Rose};
ghost use Rattle.pcl_base.specs.declared.trace.Call.{Call as CallKind};
ghost use Rattle.disk_model.specs.Disk.{HasSizes};
ghost use Rattle.home.specs.Asked.{asked};
ghost use Rattle.home.specs.Device.{told_by};
ghost use Rattle.home_laws.specs.Refused.{access_refusal};
ghost use Rattle.node_rules.specs.AccessRule.{is_held};
ghost use Rattle.node_rules.specs.DiskCalls.{DiskCall};
ghost use Rattle.node_parts.specs.Comes.{Comes, work_of};
ghost use Rattle.node_parts.specs.State.{AreParts, node_of};
ghost use Rattle.node_parts.specs.declared.fault.StepFault.TheVariants.{NoMemory as no_memory};
ghost use Rattle.page_owner.specs.Carry.{SameNode, HasSame, halted_by};
ghost use Rattle.page_owner.specs.Writes.{after_calls};
ghost use Rattle.own_steps.specs.Calls.{LeavesCalls, IsWriteFault, access_by, access_calls};

use crate::halt::halt;
use disk_model::Storage;
use home::{Access, Next};
use node_parts::{Outputs, Parts, StepFault};

/// The access of an own page that is held as it has to be: it is done at once. `NoMemory` leaves all as
/// before.
pub(crate) fn access_held<S: Storage>(
    parts: &mut Parts,
    a: &Access,
    s: &mut S,
    out: &mut Outputs,
) -> Result<(), StepFault>
    requires parts { AreParts parts.old }
    requires held { is_held (asked a.now) parts.old.home ≡ true }
    requires none { access_refusal (asked a.now) parts.old.home ≡ None }
    requires sizes { HasSizes parts.old.home.config (S.pages s.old) (S.logs s.old) (S.rooms s.old) }
    ensures comes { (ps : List (List ℕ)) (cs : List DiskCall) → S.pages s.old ≡ Some ps → Comes (access_by true (asked a.now) (work_of (node_of parts.old) ps cs out.old)) result (work_of (node_of parts.new) (after_calls ps (access_calls true (asked a.now) parts.old.home)) (cs ++ access_calls true (asked a.now) parts.old.home) out.new) }
    ensures made { LeavesCalls parts.old.home.txs.node result (access_calls true (asked a.now) parts.old.home) (told_by (S.pages s.old) (S.logs s.old) (S.stops s.old)) (told_by (S.pages s.new) (S.logs s.new) (S.stops s.new)) }
    ensures parts { AreParts parts.new }
    ensures node { result ≡ Err no_memory → node_of parts.new ≡ node_of parts.old }
    ensures lists { result ≡ Err no_memory → HasSame out.old out.new }
    ensures same { SameNode parts.old.home parts.new.home }
    ensures fault { IfErr result IsWriteFault }
    ensures sizes { HasSizes parts.old.home.config (S.pages s.new) (S.logs s.new) (S.rooms s.new) }
    ensures rooms { S.rooms s.new ≡ S.rooms s.old }
    ensures failing { S.failing s.new ≡ S.failing s.old }
    ensures counts { (k : CallKind) → S.faults s.old k ≤ S.faults s.new k }
    ensures cause { (k : CallKind) → halted_by result ≡ Some k → Rose (S.faults s.old k) (S.faults s.new k) }
{
    out.reserve(1, 0)?;
    match parts.home.access(a, true, s) {
        Err(fault) => Err(halt(fault)),
        Ok(Next::Now(reply)) => {
            out.reply(reply);
            Ok(())
        }
        Ok(Next::AskOwn(_)) => unreachable!(),
        Ok(Next::Send(_)) => unreachable!(),
    }
}
