ghost use Rattle.std.specs.Prelude.{◌≡◌, ◌≤◌, ◌<◌, ◌+◌, ◌++◌, ◌∷◌, [], ℕ, List, Option, Some, None, IsSome, OnOk, OnErr, IfErr, Err};
ghost use Rattle.pcl_base.specs.Faults.{Rose};
ghost use Rattle.pcl_base.specs.declared.trace.Call.{Call as CallKind};
ghost use Rattle.pcl_base.specs.declared.reply.Reply.TheVariants.{Taken as taken};
ghost use Rattle.disk_model.specs.Disk.{HasSizes};
ghost use Rattle.redo_log.specs.Told.{NoneFails};
ghost use Rattle.node_rules.specs.LockRule.{ask, returned};
ghost use Rattle.node_rules.specs.LockTable.{LockTable};
ghost use Rattle.node_rules.specs.NodeState.{table_of};
ghost use Rattle.node_rules.specs.DiskCalls.{DiskCall};
ghost use Rattle.node_rules.specs.Work.{reply};
ghost use Rattle.node_rules.specs.OwnerRule.{carry_all, enter};
ghost use Rattle.node_parts.specs.declared.fault.StepFault.TheVariants.{NoMemory as no_memory};
ghost use Rattle.page_owner.specs.Carry.{SameNode, HasSame, halted_by, IsTakeFault};
ghost use Rattle.node_parts.specs.Comes.{Comes, work_of};
ghost use Rattle.page_owner.specs.Planned.{settled_of};
ghost use Rattle.node_parts.specs.State.{AreParts, node_of};
ghost use Rattle.node_parts.specs.Tables.{table_for};

use crate::enter::{enter_planned, prepare};
use crate::plans::{plan_request, plan_return};
use authority::Outcome;
use disk_model::Storage;
use node_parts::{Outputs, Parts, StepFault};
use pcl_base::{NoMemory, NodeNo, PageNo, Reply, Request, ReturnRight};

// Messages that are taken at the owner of a page. Each answers `Taken` first, and does nothing more
// where the node doesn't own the page.

/// A request: it is put among those that wait, and the page is settled where its partition is
/// served. `NoMemory` leaves all as before.
pub fn take_request<S: Storage>(
    parts: &mut Parts,
    r: &Request,
    s: &mut S,
    out: &mut Outputs,
) -> Result<(), StepFault>
    requires parts { AreParts parts.old }
    requires page { r.now.page < parts.old.home.config.pages }
    requires sizes { HasSizes parts.old.home.config (S.pages s.old) (S.logs s.old) (S.rooms s.old) }
    ensures comes { (ps : List (List ℕ)) (cs : List DiskCall) → S.pages s.old ≡ Some ps → Comes (enter (λ e. ask e (record { tx = r.now.tx; mode = r.now.mode; have = r.now.have })) r.now.page (reply taken (work_of (node_of parts.old) ps cs out.old))) result (work_of (node_of parts.new) ps cs out.new) }
    ensures parts { AreParts parts.new }
    ensures node { result ≡ Err no_memory → parts.new ≡ parts.old }
    ensures lists { result ≡ Err no_memory → HasSame out.old out.new }
    ensures same { SameNode parts.old.home parts.new.home }
    ensures fault { IfErr result IsTakeFault }
    ensures pages { S.pages s.new ≡ S.pages s.old }
    ensures logs { S.logs s.new ≡ S.logs s.old }
    ensures rooms { S.rooms s.new ≡ S.rooms s.old }
    ensures stops { S.stops s.new ≡ S.stops s.old }
    ensures calm { (l : List (Option ℕ)) → NoneFails (S.failing s.old) parts.old.me l → NoneFails (S.failing s.new) parts.old.me l }
    ensures quiet { (l : List (Option ℕ)) → NoneFails (S.failing s.old) parts.old.me l → halted_by result ≡ None }
    ensures counts { (k : CallKind) → S.faults s.old k ≤ S.faults s.new k }
    ensures cause { (k : CallKind) → halted_by result ≡ Some k → Rose (S.faults s.old k) (S.faults s.new k) }
{
    match plan_request(parts, r) {
        Ok(None) => take_none(out),
        Ok(Some(planned)) => take_planned(parts, r.page, planned, s, out),
        Err(_) => Err(StepFault::NoMemory),
    }
}

/// A right comes back from a node that names the transactions that still read under it: they become
/// holders, and the page is settled where its partition is served. `NoMemory` leaves all as before.
pub fn take_return<S: Storage>(
    parts: &mut Parts,
    from: NodeNo,
    r: &ReturnRight,
    s: &mut S,
    out: &mut Outputs,
) -> Result<(), StepFault>
    requires parts { AreParts parts.old }
    requires page { r.now.page < parts.old.home.config.pages }
    requires sizes { HasSizes parts.old.home.config (S.pages s.old) (S.logs s.old) (S.rooms s.old) }
    ensures comes { (ps : List (List ℕ)) (cs : List DiskCall) → S.pages s.old ≡ Some ps → Comes (enter (λ e. returned e from r.now.readers) r.now.page (reply taken (work_of (node_of parts.old) ps cs out.old))) result (work_of (node_of parts.new) ps cs out.new) }
    ensures parts { AreParts parts.new }
    ensures node { result ≡ Err no_memory → parts.new ≡ parts.old }
    ensures lists { result ≡ Err no_memory → HasSame out.old out.new }
    ensures same { SameNode parts.old.home parts.new.home }
    ensures fault { IfErr result IsTakeFault }
    ensures pages { S.pages s.new ≡ S.pages s.old }
    ensures logs { S.logs s.new ≡ S.logs s.old }
    ensures rooms { S.rooms s.new ≡ S.rooms s.old }
    ensures stops { S.stops s.new ≡ S.stops s.old }
    ensures calm { (l : List (Option ℕ)) → NoneFails (S.failing s.old) parts.old.me l → NoneFails (S.failing s.new) parts.old.me l }
    ensures quiet { (l : List (Option ℕ)) → NoneFails (S.failing s.old) parts.old.me l → halted_by result ≡ None }
    ensures counts { (k : CallKind) → S.faults s.old k ≤ S.faults s.new k }
    ensures cause { (k : CallKind) → halted_by result ≡ Some k → Rose (S.faults s.old k) (S.faults s.new k) }
{
    match plan_return(parts, from, r) {
        Ok(None) => take_none(out),
        Ok(Some(planned)) => take_planned(parts, r.page, planned, s, out),
        Err(_) => Err(StepFault::NoMemory),
    }
}

/// What a message that is taken plans for an own page is put in. `NoMemory` leaves all as before.
fn take_planned<S: Storage>(
    parts: &mut Parts,
    page: PageNo,
    planned: Outcome,
    s: &mut S,
    out: &mut Outputs,
) -> Result<(), StepFault>
    requires parts { AreParts parts.old }
    requires page { page < parts.old.home.config.pages }
    requires own { IsSome (table_for parts.old.tables page) }
    requires sizes { HasSizes parts.old.home.config (S.pages s.old) (S.logs s.old) (S.rooms s.old) }
    ensures comes { (t : LockTable) (ps : List (List ℕ)) (cs : List DiskCall) → table_of (node_of parts.old) page ≡ Some t → S.pages s.old ≡ Some ps → Comes (carry_all page t (settled_of planned) (reply taken (work_of (node_of parts.old) ps cs out.old))) result (work_of (node_of parts.new) ps cs out.new) }
    ensures parts { AreParts parts.new }
    ensures node { result ≡ Err no_memory → parts.new ≡ parts.old }
    ensures lists { result ≡ Err no_memory → HasSame out.old out.new }
    ensures same { SameNode parts.old.home parts.new.home }
    ensures fault { IfErr result IsTakeFault }
    ensures pages { S.pages s.new ≡ S.pages s.old }
    ensures logs { S.logs s.new ≡ S.logs s.old }
    ensures rooms { S.rooms s.new ≡ S.rooms s.old }
    ensures stops { S.stops s.new ≡ S.stops s.old }
    ensures calm { (l : List (Option ℕ)) → NoneFails (S.failing s.old) parts.old.me l → NoneFails (S.failing s.new) parts.old.me l }
    ensures quiet { (l : List (Option ℕ)) → NoneFails (S.failing s.old) parts.old.me l → halted_by result ≡ None }
    ensures counts { (k : CallKind) → S.faults s.old k ≤ S.faults s.new k }
    ensures cause { (k : CallKind) → halted_by result ≡ Some k → Rose (S.faults s.old k) (S.faults s.new k) }
{
    match prepare(parts, page, &planned, out) {
        Err(_) => Err(StepFault::NoMemory),
        Ok(stock) => {
            let mut stock = stock;
            out.reply(Reply::Taken);
            enter_planned(parts, page, planned, &mut stock, s, out)
        }
    }
}

/// A message that is taken and does nothing more. `NoMemory` leaves the lists as before.
pub fn take_none(out: &mut Outputs) -> Result<(), StepFault>
    ensures replies { OnOk result (out.new.replies ≡ out.old.replies ++ taken ∷ []) }
    ensures sends { out.new.sends ≡ out.old.sends }
    ensures err { OnErr result (HasSame out.old out.new) }
    ensures fault { IfErr result (λ e. e ≡ no_memory) }
{
    out.reserve(1, 0)?;
    out.reply(Reply::Taken);
    Ok(())
}
