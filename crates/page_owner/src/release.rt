ghost use Rattle.std.specs.Prelude.{◌≡◌, ◌≢◌, ◌≤◌, ◌<◌, ◌++◌, ℕ, List, Option, Some, None, true, length, IsSome, IfSome, IfErr, Err};
ghost use Rattle.pcl_base.specs.Faults.{Rose};
ghost use Rattle.pcl_base.specs.declared.trace.Call.{Call as CallKind};
ghost use Rattle.pcl_base.specs.declared.reply.Reply.TheVariants.{Taken as taken};
ghost use Rattle.disk_model.specs.Disk.{HasSizes};
ghost use Rattle.redo_log.specs.Told.{NoneFails};
ghost use Rattle.node_rules.specs.LockTable.{LockTable};
ghost use Rattle.node_rules.specs.NodeState.{table_of};
ghost use Rattle.node_rules.specs.DiskCalls.{DiskCall};
ghost use Rattle.node_rules.specs.Work.{reply};
ghost use Rattle.node_rules.specs.OwnerRule.{carry_all, on_release, put_taken};
ghost use Rattle.node_parts.specs.declared.fault.StepFault.TheVariants.{NoMemory as no_memory};
ghost use Rattle.page_owner.specs.Carry.{SameNode, HasSame, halted_by};
ghost use Rattle.node_parts.specs.Comes.{Comes, work_of};
ghost use Rattle.home.specs.Device.{MadeIf, RoseIf, told_by};
ghost use Rattle.page_owner.specs.Planned.{settled_of};
ghost use Rattle.node_parts.specs.Tables.{table_for};
ghost use Rattle.page_owner.specs.Released.{put_calls, release_calls, LeavesCalls, IsReleaseFault, home_put};
ghost use Rattle.page_owner.specs.Writes.{after_calls};
ghost use Rattle.node_parts.specs.State.{AreParts, node_of};

use crate::enter::{enter_planned, prepare};
use crate::plans::plan_release;
use crate::take::take_none;
use authority::Outcome;
use disk_model::{Call, Storage};
use home::{Home, HomeFault};
use node_parts::{Outputs, Parts, StepFault};
use pcl_base::{Release, Reply};

/// A release that is taken at the owner of a page: `Taken` is answered, the change goes into the
/// buffer or is written where it is taken, the transaction leaves the entry, and the page is
/// settled where its partition is served. It does nothing more where the node doesn't own the
/// page. `NoMemory` leaves all as before.
pub fn take_release<S: Storage>(
    parts: &mut Parts,
    r: &Release,
    s: &mut S,
    out: &mut Outputs,
) -> Result<(), StepFault>
    requires parts { AreParts parts.old }
    requires page { r.now.page < parts.old.home.config.pages }
    requires image { IfSome r.now.change (λ c. length c.image ≡ parts.old.home.config.size) }
    requires sizes { HasSizes parts.old.home.config (S.pages s.old) (S.logs s.old) (S.rooms s.old) }
    ensures comes { (ps : List (List ℕ)) (cs : List DiskCall) → S.pages s.old ≡ Some ps → Comes (on_release r.now (reply taken (work_of (node_of parts.old) ps cs out.old))) result (work_of (node_of parts.new) (after_calls ps (release_calls r.now (table_of (node_of parts.old) r.now.page) parts.old.home)) (cs ++ release_calls r.now (table_of (node_of parts.old) r.now.page) parts.old.home) out.new) }
    ensures parts { AreParts parts.new }
    ensures node { result ≡ Err no_memory → parts.new ≡ parts.old }
    ensures lists { result ≡ Err no_memory → HasSame out.old out.new }
    ensures same { SameNode parts.old.home parts.new.home }
    ensures fault { IfErr result IsReleaseFault }
    ensures made { LeavesCalls parts.old.me result (release_calls r.now (table_of (node_of parts.old) r.now.page) parts.old.home) (told_by (S.pages s.old) (S.logs s.old) (S.stops s.old)) (told_by (S.pages s.new) (S.logs s.new) (S.stops s.new)) }
    ensures sizes { HasSizes parts.old.home.config (S.pages s.new) (S.logs s.new) (S.rooms s.new) }
    ensures logs { S.logs s.new ≡ S.logs s.old }
    ensures rooms { S.rooms s.new ≡ S.rooms s.old }
    ensures calm { (l : List (Option ℕ)) → NoneFails (S.failing s.old) parts.old.me l → NoneFails (S.failing s.new) parts.old.me l }
    ensures quiet { (l : List (Option ℕ)) → NoneFails (S.failing s.old) parts.old.me l → halted_by result ≢ Some Call.Read }
    ensures counts { (k : CallKind) → S.faults s.old k ≤ S.faults s.new k }
    ensures cause { (k : CallKind) → halted_by result ≡ Some k → Rose (S.faults s.old k) (S.faults s.new k) }
{
    match plan_release(parts, r) {
        Err(_) => Err(StepFault::NoMemory),
        Ok(None) => take_none(out),
        Ok(Some(planned)) => release_planned(parts, r, planned, s, out),
    }
}

/// What a release plans for an own page is put in, after its change where that is taken. `NoMemory`
/// leaves all as before.
fn release_planned<S: Storage>(
    parts: &mut Parts,
    r: &Release,
    planned: Outcome,
    s: &mut S,
    out: &mut Outputs,
) -> Result<(), StepFault>
    requires parts { AreParts parts.old }
    requires page { r.now.page < parts.old.home.config.pages }
    requires own { IsSome (table_for parts.old.tables r.now.page) }
    requires image { IfSome r.now.change (λ c. length c.image ≡ parts.old.home.config.size) }
    requires sizes { HasSizes parts.old.home.config (S.pages s.old) (S.logs s.old) (S.rooms s.old) }
    ensures comes { (t : LockTable) (ps : List (List ℕ)) (cs : List DiskCall) → table_of (node_of parts.old) r.now.page ≡ Some t → S.pages s.old ≡ Some ps → Comes (carry_all r.now.page t (settled_of planned) (put_taken planned.changed r.now.page r.now.change (reply taken (work_of (node_of parts.old) ps cs out.old)))) result (work_of (node_of parts.new) (after_calls ps (put_calls planned.changed r.now.page r.now.change parts.old.home)) (cs ++ put_calls planned.changed r.now.page r.now.change parts.old.home) out.new) }
    ensures parts { AreParts parts.new }
    ensures node { result ≡ Err no_memory → parts.new ≡ parts.old }
    ensures lists { result ≡ Err no_memory → HasSame out.old out.new }
    ensures same { SameNode parts.old.home parts.new.home }
    ensures fault { IfErr result IsReleaseFault }
    ensures made { LeavesCalls parts.old.me result (put_calls planned.changed r.now.page r.now.change parts.old.home) (told_by (S.pages s.old) (S.logs s.old) (S.stops s.old)) (told_by (S.pages s.new) (S.logs s.new) (S.stops s.new)) }
    ensures sizes { HasSizes parts.old.home.config (S.pages s.new) (S.logs s.new) (S.rooms s.new) }
    ensures logs { S.logs s.new ≡ S.logs s.old }
    ensures rooms { S.rooms s.new ≡ S.rooms s.old }
    ensures calm { (l : List (Option ℕ)) → NoneFails (S.failing s.old) parts.old.me l → NoneFails (S.failing s.new) parts.old.me l }
    ensures quiet { (l : List (Option ℕ)) → NoneFails (S.failing s.old) parts.old.me l → halted_by result ≢ Some Call.Read }
    ensures counts { (k : CallKind) → S.faults s.old k ≤ S.faults s.new k }
    ensures cause { (k : CallKind) → halted_by result ≡ Some k → Rose (S.faults s.old k) (S.faults s.new k) }
{
    match prepare(parts, r.page, &planned, out) {
        Err(_) => Err(StepFault::NoMemory),
        Ok(stock) => {
            let mut stock = stock;
            out.reply(Reply::Taken);
            if put_change(&mut parts.home, planned.changed, r, s) {
                return enter_planned(parts, r.page, planned, &mut stock, s, out);
            }
            parts.tables.give_up(r.page);
            Err(StepFault::Halted {
                call: Call::Write,
                kept: None,
            })
        }
    }
}

/// The change of a release goes into the buffer, or is written, where it is taken. True where no write
/// failed. It takes no memory.
fn put_change<S: Storage>(home: &mut Home, changed: bool, r: &Release, s: &mut S) -> bool
    requires page { r.now.page < home.old.config.pages }
    requires image { IfSome r.now.change (λ c. length c.image ≡ home.old.config.size) }
    requires sizes { HasSizes home.old.config (S.pages s.old) (S.logs s.old) (S.rooms s.old) }
    ensures home { home.new ≡ home_put changed r.now.page r.now.change home.old }
    ensures made { MadeIf home.old.txs.node true result (put_calls changed r.now.page r.now.change home.old) (told_by (S.pages s.old) (S.logs s.old) (S.stops s.old)) (told_by (S.pages s.new) (S.logs s.new) (S.stops s.new)) }
    ensures sizes { HasSizes home.old.config (S.pages s.new) (S.logs s.new) (S.rooms s.new) }
    ensures logs { S.logs s.new ≡ S.logs s.old }
    ensures rooms { S.rooms s.new ≡ S.rooms s.old }
    ensures failing { S.failing s.new ≡ S.failing s.old }
    ensures counts { (k : CallKind) → S.faults s.old k ≤ S.faults s.new k }
    ensures cause { RoseIf true result (Rose (S.faults s.old Call.Write) (S.faults s.new Call.Write)) }
{
    if !changed {
        return true;
    }
    match &r.change {
        None => true,
        Some(change) => match home.take_change(r.page, change, s) {
            Ok(()) => true,
            Err(HomeFault::Failed { .. }) => false,
            Err(HomeFault::Refused(_)) => unreachable!(),
            Err(HomeFault::Differs { .. }) => unreachable!(),
            Err(HomeFault::NoMemory) => unreachable!(),
        },
    }
}
