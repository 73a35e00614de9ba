ghost use Rattle.std.specs.Prelude.{◌≡◌, ◌≢◌, ◌≤◌, ◌++◌, ℕ, List, Option, Some, None, true, false, is_some, IfErr, Err};
ghost use Rattle.pcl_base.specs.Faults.{Rose};
ghost use Rattle.pcl_base.specs.declared.trace.Call.{Call as CallKind};
ghost use Rattle.disk_model.specs.Disk.{HasSizes};
ghost use Rattle.redo_log.specs.Told.{NoneFails};
ghost use Rattle.home.specs.Asked.{asked};
ghost use Rattle.home.specs.Device.{told_by};
ghost use Rattle.home_laws.specs.Homes.{IsHome};
ghost use Rattle.home_laws.specs.Refused.{access_refusal};
ghost use Rattle.node_rules.specs.DiskCalls.{DiskCall};
ghost use Rattle.node_rules.specs.AccessRule.{is_held};
ghost use Rattle.node_rules.specs.NodeState.{table_of};
ghost use Rattle.node_parts.specs.Comes.{Comes, work_of};
ghost use Rattle.node_parts.specs.State.{AreParts, node_of};
ghost use Rattle.node_parts.specs.declared.fault.StepFault.TheVariants.{NoMemory as no_memory};
ghost use Rattle.page_owner.specs.Carry.{SameNode, HasSame, halted_by};
ghost use Rattle.page_owner.specs.Writes.{after_calls};
ghost use Rattle.page_owner.specs.Planned.{IsPlanFor};
ghost use Rattle.own_steps.specs.Calls.{LeavesCalls, IsAccessFault, access_by, access_calls, planned_request};

use crate::halt::halt;
use crate::planning::tell_waiting;
use authority::Outcome;
use disk_model::{Call, Storage};
use home::{Access, Next};
use node_parts::{Outputs, Parts, StepFault};
use page_owner::{enter_planned, prepare};

/// The access of an own page goes into the page's entry, as was planned; the page is settled where its
/// partition is served.
pub(crate) fn access_planned<S: Storage>(
    parts: &mut Parts,
    a: &Access,
    planned: Outcome,
    s: &mut S,
    out: &mut Outputs,
) -> Result<(), StepFault>
    requires parts { AreParts parts.old }
    requires own { is_some (table_of (node_of parts.old) a.now.page) ≡ true }
    requires free { is_held (asked a.now) parts.old.home ≡ false }
    requires plan { IsPlanFor (table_of (node_of parts.old) a.now.page) (planned_request (asked a.now) parts.old.me parts.old.home) (Some planned) }
    requires home { IsHome parts.old.home }
    requires none { access_refusal (asked a.now) parts.old.home ≡ None }
    requires sizes { HasSizes parts.old.home.config (S.pages s.old) (S.logs s.old) (S.rooms s.old) }
    ensures comes { (ps : List (List ℕ)) (cs : List DiskCall) → S.pages s.old ≡ Some ps → Comes (access_by true (asked a.now) (work_of (node_of parts.old) ps cs out.old)) result (work_of (node_of parts.new) (after_calls ps (access_calls true (asked a.now) parts.old.home)) (cs ++ access_calls true (asked a.now) parts.old.home) out.new) }
    ensures made { LeavesCalls parts.old.home.txs.node result (access_calls true (asked a.now) parts.old.home) (told_by (S.pages s.old) (S.logs s.old) (S.stops s.old)) (told_by (S.pages s.new) (S.logs s.new) (S.stops s.new)) }
    ensures parts { AreParts parts.new }
    ensures node { result ≡ Err no_memory → node_of parts.new ≡ node_of parts.old }
    ensures lists { result ≡ Err no_memory → HasSame out.old out.new }
    ensures same { SameNode parts.old.home parts.new.home }
    ensures fault { IfErr result IsAccessFault }
    ensures sizes { HasSizes parts.old.home.config (S.pages s.new) (S.logs s.new) (S.rooms s.new) }
    ensures rooms { S.rooms s.new ≡ S.rooms s.old }
    ensures calm { (l : List (Option ℕ)) → NoneFails (S.failing s.old) parts.old.me l → NoneFails (S.failing s.new) parts.old.me l }
    ensures quiet { (l : List (Option ℕ)) → NoneFails (S.failing s.old) parts.old.me l → halted_by result ≢ Some Call.Read }
    ensures counts { (k : CallKind) → S.faults s.old k ≤ S.faults s.new k }
    ensures cause { (k : CallKind) → halted_by result ≡ Some k → Rose (S.faults s.old k) (S.faults s.new k) }
{
    let mut stock = prepare(parts, a.page, &planned, out)?;
    match parts.home.access(a, true, s) {
        Err(fault) => {
            parts.tables.give_up(a.page);
            Err(halt(fault))
        }
        Ok(Next::AskOwn(_)) => {
            enter_planned(parts, a.page, planned, &mut stock, s, out)?;
            tell_waiting(parts, a, out);
            Ok(())
        }
        Ok(Next::Now(_)) => unreachable!(),
        Ok(Next::Send(_)) => unreachable!(),
    }
}
