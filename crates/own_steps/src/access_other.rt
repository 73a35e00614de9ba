ghost use Rattle.std.specs.Prelude.{◌≡◌, ◌≤◌, ◌++◌, ℕ, List, Some, None, true, false, is_some, IfErr, Err};
ghost use Rattle.pcl_base.specs.Faults.{Rose};
ghost use Rattle.pcl_base.specs.declared.trace.Call.{Call as CallKind};
ghost use Rattle.disk_model.specs.Disk.{HasSizes};
ghost use Rattle.home.specs.Asked.{asked};
ghost use Rattle.home.specs.Device.{told_by};
ghost use Rattle.home_laws.specs.Refused.{access_refusal};
ghost use Rattle.node_rules.specs.DiskCalls.{DiskCall};
ghost use Rattle.node_parts.specs.Comes.{Comes, work_of};
ghost use Rattle.node_parts.specs.State.{AreParts, node_of};
ghost use Rattle.node_parts.specs.declared.fault.StepFault.TheVariants.{NoMemory as no_memory};
ghost use Rattle.page_owner.specs.Carry.{SameNode, HasSame, halted_by};
ghost use Rattle.page_owner.specs.Writes.{after_calls};
ghost use Rattle.own_steps.specs.Calls.{LeavesCalls, IsWriteFault, access_by, access_calls};

use crate::halt::halt;
use crate::looks::page_owner;
use disk_model::Storage;
use home::{Access, Next};
use node_parts::{Outputs, Parts, StepFault};
use pcl_base::{Body, Message, Reply};

/// The access of a page that another node owns: it is done at once, or waits and a request goes to the
/// owner. `NoMemory` leaves all as before, and `Halted` comes where a page couldn't be written.
pub(crate) fn access_elsewhere<S: Storage>(
    parts: &mut Parts,
    a: &Access,
    s: &mut S,
    out: &mut Outputs,
) -> Result<(), StepFault>
    requires parts { AreParts parts.old }
    requires view { is_some parts.old.view ≡ true }
    requires none { access_refusal (asked a.now) parts.old.home ≡ None }
    requires sizes { HasSizes parts.old.home.config (S.pages s.old) (S.logs s.old) (S.rooms s.old) }
    ensures comes { (ps : List (List ℕ)) (cs : List DiskCall) → S.pages s.old ≡ Some ps → Comes (access_by false (asked a.now) (work_of (node_of parts.old) ps cs out.old)) result (work_of (node_of parts.new) (after_calls ps (access_calls false (asked a.now) parts.old.home)) (cs ++ access_calls false (asked a.now) parts.old.home) out.new) }
    ensures made { LeavesCalls parts.old.home.txs.node result (access_calls false (asked a.now) parts.old.home) (told_by (S.pages s.old) (S.logs s.old) (S.stops s.old)) (told_by (S.pages s.new) (S.logs s.new) (S.stops s.new)) }
    ensures parts { AreParts parts.new }
    ensures node { result ≡ Err no_memory → node_of parts.new ≡ node_of parts.old }
    ensures lists { result ≡ Err no_memory → HasSame out.old out.new }
    ensures same { SameNode parts.old.home parts.new.home }
    ensures fault { IfErr result IsWriteFault }
    ensures sizes { HasSizes parts.old.home.config (S.pages s.new) (S.logs s.new) (S.rooms s.new) }
    ensures rooms { S.rooms s.new ≡ S.rooms s.old }
    ensures failing { S.failing s.new ≡ S.failing s.old }
    ensures counts { (k : CallKind) → S.faults s.old k ≤ S.faults s.new k }
    ensures cause { (k : CallKind) → halted_by result ≡ Some k → Rose (S.faults s.old k) (S.faults s.new k) }
{
    out.reserve(1, 1)?;
    let to = page_owner(parts, a.page);
    match parts.home.access(a, false, s) {
        Err(fault) => Err(halt(fault)),
        Ok(Next::Now(reply)) => {
            out.reply(reply);
            Ok(())
        }
        Ok(Next::Send(request)) => {
            let (tx, page) = (a.tx, a.page);
            out.reply(Reply::Waits { tx, page });
            let epoch = parts.epoch;
            let body = Body::Request(request);
            out.send(to, Message { epoch, body });
            Ok(())
        }
        Ok(Next::AskOwn(_)) => unreachable!(),
    }
}
