ghost use Rattle.std.specs.Prelude.{◌≡◌, ◌≢◌, ◌≤◌, ◌<◌, ◌+◌, ◌∷◌, ℕ, List, Option, Some, None, true, is_some, map, OnOk, IfErr};
ghost use Rattle.pcl_base.specs.Faults.{Rose};
ghost use Rattle.pcl_base.specs.declared.trace.Call.{Call as CallKind};
ghost use Rattle.disk_model.specs.Disk.{HasSizes};
ghost use Rattle.redo_log.specs.Told.{NoneFails};
ghost use Rattle.node_rules.specs.DiskCalls.{DiskCall};
ghost use Rattle.node_rules.specs.NodeState.{table_of};
ghost use Rattle.node_rules.specs.OwnerRule.{send_release, tell_end};
ghost use Rattle.node_rules.specs.Work.{for_each};
ghost use Rattle.node_parts.specs.Comes.{Comes, work_of};
ghost use Rattle.node_parts.specs.State.{AreParts, IsNode, node_of};
ghost use Rattle.node_parts.specs.Tables.{AreTidyBut, made_at};
ghost use Rattle.page_owner.specs.Carry.{HasMemory, IsReadHalt, SameNode, halted_by};
ghost use Rattle.page_owner.specs.Planned.{ArePartsBut, SameView};
ghost use Rattle.own_steps.specs.Ends.{AwaitsEnds, HasMemoryFor, MayTell, SameEntry, UsesEnd, decisions_of, due};

use crate::looks::page_owner;
use crate::page_end::PageEnd;
use crate::rooms::give_up_rooms;
use authority::Outcome;
use disk_model::Storage;
use home::Ending;
use node_parts::{Outputs, Parts, StepFault, Stock};
use page_owner::enter_among;
use pcl_base::{Body, Kind, Message, Release, TxId};

// The ends of a transaction, told to the owners of its pages.

/// Tells the ends of a transaction, one after the other: of an own page what was planned for its entry is
/// put in, and the owner of another is told by a release, unless the page was held under a right alone.
/// It takes no memory.
pub(crate) fn tell_ends<S: Storage>(
    parts: &mut Parts,
    tx: TxId,
    ends: Vec<Ending>,
    plans: Vec<PageEnd>,
    stock: &mut Stock,
    s: &mut S,
    out: &mut Outputs,
) -> Result<(), StepFault>
    requires awaits { AwaitsEnds parts.old tx (map due ends.items) plans.items }
    requires view { is_some parts.old.view ≡ true }
    requires sizes { HasSizes parts.old.home.config (S.pages s.old) (S.logs s.old) (S.rooms s.old) }
    requires memory { HasMemoryFor plans.items stock.old out.old }
    requires size { parts.old.home.config.size ≤ stock.old.size }
    ensures comes { (ps : List (List ℕ)) (cs : List DiskCall) → S.pages s.old ≡ Some ps → Comes (for_each (tell_end tx) ends.items (work_of (node_of parts.old) ps cs out.old)) result (work_of (node_of parts.new) ps cs out.new) }
    ensures parts { AreParts parts.new }
    ensures same { SameNode parts.old.home parts.new.home }
    ensures fault { IfErr result IsReadHalt }
    ensures pages { S.pages s.new ≡ S.pages s.old }
    ensures logs { S.logs s.new ≡ S.logs s.old }
    ensures rooms { S.rooms s.new ≡ S.rooms s.old }
    ensures stops { S.stops s.new ≡ S.stops s.old }
    ensures calm { (l : List (Option ℕ)) → NoneFails (S.failing s.old) parts.old.me l → NoneFails (S.failing s.new) parts.old.me l }
    ensures quiet { (l : List (Option ℕ)) → NoneFails (S.failing s.old) parts.old.me l → halted_by result ≡ None }
    ensures counts { (k : CallKind) → S.faults s.old k ≤ S.faults s.new k }
    ensures cause { (k : CallKind) → halted_by result ≡ Some k → Rose (S.faults s.old k) (S.faults s.new k) }
{
    let mut ends = ends.into_iter();
    let mut plans = plans.into_iter();
    while let Some(plan) = plans.next() {
        let PageEnd {
            page: _page,
            planned,
        } = plan;
        match ends.next() {
            None => unreachable!(),
            Some(end) => {
                match tell_one(parts, tx, end, planned, stock, s, out) {
                    Ok(()) => {}
                    Err(fault) => {
                        give_up_rooms(parts, plans);
                        return Err(fault);
                    }
                }
            }
        }
    }
    Ok(())
}

/// The same of one end, with what is planned for its page where that is an own one.
fn tell_one<S: Storage>(
    parts: &mut Parts,
    tx: TxId,
    end: Ending,
    planned: Option<Outcome>,
    stock: &mut Stock,
    s: &mut S,
    out: &mut Outputs,
) -> Result<(), StepFault>
    requires may { MayTell parts.old tx (due end) planned }
    requires view { is_some parts.old.view ≡ true }
    requires sizes { HasSizes parts.old.home.config (S.pages s.old) (S.logs s.old) (S.rooms s.old) }
    requires memory { HasMemory (decisions_of planned) stock.old out.old }
    requires send { decisions_of planned + 1 ≤ out.old.send_room }
    requires size { parts.old.home.config.size ≤ stock.old.size }
    ensures comes { (ps : List (List ℕ)) (cs : List DiskCall) → S.pages s.old ≡ Some ps → Comes (tell_end tx end (work_of (node_of parts.old) ps cs out.old)) result (work_of (node_of parts.new) ps cs out.new) }
    ensures parts { (ps : List ℕ) → AreTidyBut (end.page ∷ ps) parts.old.tables → ArePartsBut ps parts.new }
    ensures others { (p : ℕ) → p ≢ end.page → made_at parts.new.tables p ≡ made_at parts.old.tables p }
    ensures entries { (p : ℕ) → p ≢ end.page → SameEntry (table_of (node_of parts.old) p) (table_of (node_of parts.new) p) p }
    ensures view { SameView parts.old parts.new }
    ensures same { SameNode parts.old.home parts.new.home }
    ensures used { OnOk result (UsesEnd (decisions_of planned) stock.old stock.new out.old out.new) }
    ensures fault { IfErr result IsReadHalt }
    ensures pages { S.pages s.new ≡ S.pages s.old }
    ensures logs { S.logs s.new ≡ S.logs s.old }
    ensures rooms { S.rooms s.new ≡ S.rooms s.old }
    ensures stops { S.stops s.new ≡ S.stops s.old }
    ensures calm { (l : List (Option ℕ)) → NoneFails (S.failing s.old) parts.old.me l → NoneFails (S.failing s.new) parts.old.me l }
    ensures quiet { (l : List (Option ℕ)) → NoneFails (S.failing s.old) parts.old.me l → halted_by result ≡ None }
    ensures counts { (k : CallKind) → S.faults s.old k ≤ S.faults s.new k }
    ensures cause { (k : CallKind) → halted_by result ≡ Some k → Rose (S.faults s.old k) (S.faults s.new k) }
{
    match planned {
        Some(planned) => enter_among(parts, end.page, planned, stock, s, out),
        None => {
            release_end(parts, tx, end, out);
            Ok(())
        }
    }
}

/// The owner of another node's page is told the end by a release, unless the page was held under a right
/// alone. It takes no memory.
fn release_end(parts: &Parts, tx: TxId, end: Ending, out: &mut Outputs)
    requires node { IsNode (node_of parts.now) }
    requires config { parts.now.tables.config ≡ parts.now.home.config }
    requires view { is_some parts.now.view ≡ true }
    requires page { end.page < parts.now.home.config.pages }
    requires room { 1 ≤ out.old.send_room }
    ensures told { (ps : List (List ℕ)) (cs : List DiskCall) → send_release end.kind tx end (work_of (node_of parts.now) ps cs out.old) ≡ work_of (node_of parts.now) ps cs out.new }
    ensures replies { out.new.reply_room ≡ out.old.reply_room }
    ensures sends { out.old.send_room ≤ out.new.send_room + 1 }
{
    let Ending { page, kind, change } = end;
    match kind {
        Kind::Registered => {
            let to = page_owner(parts, page);
            let epoch = parts.epoch;
            let body = Body::Release(Release { tx, page, change });
            out.send(to, Message { epoch, body });
        }
        Kind::Own => {}
        Kind::Right => {}
    }
}
