ghost use Rattle.std.specs.Prelude.{◌≡◌, ◌≢◌, ◌≤◌, ◌++◌, ℕ, List, Option, Some, None, true, is_some, IfErr, Err};
ghost use Rattle.pcl_base.specs.Faults.{Rose};
ghost use Rattle.pcl_base.specs.declared.trace.Call.{Call as CallKind};
ghost use Rattle.disk_model.specs.Disk.{HasSizes};
ghost use Rattle.redo_log.specs.Told.{NoneFails};
ghost use Rattle.home.specs.Asked.{asked};
ghost use Rattle.home.specs.Device.{told_by};
ghost use Rattle.home_laws.specs.Refused.{access_refusal};
ghost use Rattle.node_rules.specs.DiskCalls.{DiskCall};
ghost use Rattle.node_rules.specs.OwnerRule.{do_access};
ghost use Rattle.node_parts.specs.Comes.{Comes, work_of};
ghost use Rattle.node_parts.specs.State.{AreParts, node_of};
ghost use Rattle.node_parts.specs.declared.fault.StepFault.TheVariants.{NoMemory as no_memory};
ghost use Rattle.page_owner.specs.Carry.{SameNode, HasSame, halted_by};
ghost use Rattle.page_owner.specs.Writes.{after_calls};
ghost use Rattle.own_steps.specs.Calls.{LeavesCalls, IsAccessFault, own_calls};

use crate::access_other::access_elsewhere;
use crate::held::access_held;
use crate::looks::{is_held, owns};
use crate::planned::access_planned;
use crate::planning::plan_access;
use disk_model::{Call, Storage};
use home::Access;
use node_parts::{Outputs, Parts, StepFault};

/// An access of a page by an open transaction, which the home doesn't refuse. One that is held as it has
/// to be, or allowed under the node's right, is done at once. Else it goes into the entry of an own page,
/// which is settled where its partition is served, or a request goes to the page's owner; `Waits` is
/// replied first where it still waits. `NoMemory` leaves all as before; `Halted` comes where a page
/// couldn't be written or read.
pub fn access<S: Storage>(
    parts: &mut Parts,
    a: &Access,
    s: &mut S,
    out: &mut Outputs,
) -> Result<(), StepFault>
    requires parts { AreParts parts.old }
    requires view { is_some parts.old.view ≡ true }
    requires none { access_refusal (asked a.now) parts.old.home ≡ None }
    requires sizes { HasSizes parts.old.home.config (S.pages s.old) (S.logs s.old) (S.rooms s.old) }
    ensures comes { (ps : List (List ℕ)) (cs : List DiskCall) → S.pages s.old ≡ Some ps → Comes (do_access (asked a.now) (work_of (node_of parts.old) ps cs out.old)) result (work_of (node_of parts.new) (after_calls ps (own_calls (asked a.now) (node_of parts.old))) (cs ++ own_calls (asked a.now) (node_of parts.old)) out.new) }
    ensures made { LeavesCalls parts.old.home.txs.node result (own_calls (asked a.now) (node_of parts.old)) (told_by (S.pages s.old) (S.logs s.old) (S.stops s.old)) (told_by (S.pages s.new) (S.logs s.new) (S.stops s.new)) }
    ensures parts { AreParts parts.new }
    ensures node { result ≡ Err no_memory → node_of parts.new ≡ node_of parts.old }
    ensures lists { result ≡ Err no_memory → HasSame out.old out.new }
    ensures same { SameNode parts.old.home parts.new.home }
    ensures fault { IfErr result IsAccessFault }
    ensures sizes { HasSizes parts.old.home.config (S.pages s.new) (S.logs s.new) (S.rooms s.new) }
    ensures rooms { S.rooms s.new ≡ S.rooms s.old }
    ensures calm { (l : List (Option ℕ)) → NoneFails (S.failing s.old) parts.old.me l → NoneFails (S.failing s.new) parts.old.me l }
    ensures quiet { (l : List (Option ℕ)) → NoneFails (S.failing s.old) parts.old.me l → halted_by result ≢ Some Call.Read }
    ensures counts { (k : CallKind) → S.faults s.old k ≤ S.faults s.new k }
    ensures cause { (k : CallKind) → halted_by result ≡ Some k → Rose (S.faults s.old k) (S.faults s.new k) }
{
    if !owns(parts, a.page) {
        return access_elsewhere(parts, a, s, out);
    }
    if is_held(&parts.home, a) {
        return access_held(parts, a, s, out);
    }
    match plan_access(parts, a) {
        Err(_) => Err(StepFault::NoMemory),
        Ok(None) => unreachable!(),
        Ok(Some(planned)) => access_planned(parts, a, planned, s, out),
    }
}
