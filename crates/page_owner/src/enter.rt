ghost use Rattle.std.specs.Prelude.{◌≡◌, ◌≢◌, ◌≤◌, ◌<◌, ◌+◌, ◌%◌, ◌++◌, ◌∷◌, [], ℕ, List, Option, Some, None, length, IsSome, IfOk, OnOk, OnErr, IfErr, Err};
ghost use Rattle.pcl_base.specs.Faults.{Rose};
ghost use Rattle.pcl_base.specs.declared.trace.Call.{Call as CallKind};
ghost use Rattle.disk_model.specs.Disk.{HasSizes};
ghost use Rattle.redo_log.specs.Told.{NoneFails};
ghost use Rattle.node_rules.specs.LockTable.{LockTable};
ghost use Rattle.node_rules.specs.NodeState.{table_of};
ghost use Rattle.node_rules.specs.DiskCalls.{DiskCall};
ghost use Rattle.node_rules.specs.OwnerRule.{carry_all};
ghost use Rattle.page_owner.specs.Carry.{HasMemory, UsesMany, SameNode, halted_by, IsReadHalt};
ghost use Rattle.node_parts.specs.Comes.{Comes, work_of};
ghost use Rattle.node_parts.specs.Outputs.{OutputsView};
ghost use Rattle.page_owner.specs.Planned.{ArePartsBut, HasMade, MayEnter, SameView, settled_of};
ghost use Rattle.node_parts.specs.State.{AreParts, node_of};
ghost use Rattle.node_parts.specs.Tables.{AreTidyBut, lock_tables, made_at, table_for, with_entry_at};

use crate::carry::{OwnPage, carry_all};
use authority::Outcome;
use disk_model::Storage;
use node_parts::{Outputs, Parts, StepFault, Stock};
use pcl_base::{NoMemory, PageNo};

// What a node plans for one of its own pages, put in.

/// Takes the memory for what is planned for a page that the node owns: room for its entry, and for
/// one reply more than decisions. For the rules nothing changes, and `NoMemory` leaves all as
/// before.
pub fn prepare(
    parts: &mut Parts,
    page: PageNo,
    planned: &Outcome,
    out: &mut Outputs,
) -> Result<Stock, NoMemory>
    requires parts { AreParts parts.old }
    requires page { page < parts.old.home.config.pages }
    requires own { IsSome (table_for parts.old.tables page) }
    ensures made { OnOk result (HasMade page parts.new) }
    ensures node { node_of parts.new ≡ node_of parts.old }
    ensures memory { IfOk result (λ stock. HasMemory (length planned.now.decisions.items) stock out.new) }
    ensures size { IfOk result (λ stock. stock.size ≡ parts.old.home.config.size) }
    ensures reply { OnOk result (length planned.now.decisions.items + 1 ≤ out.new.reply_room) }
    ensures replies { out.new.replies ≡ out.old.replies }
    ensures sends { out.new.sends ≡ out.old.sends }
    ensures err { OnErr result (parts.new ≡ parts.old) }
{
    let count = planned.decisions.len();
    let Some(replies) = count.checked_add(1) else {
        return Err(NoMemory);
    };
    out.reserve(replies, count)?;
    let size = parts.home.config().size() as usize;
    let stock = Stock::open(parts.alloc, size, count)?;
    parts.tables.make(page)?;
    Ok(stock)
}

/// Puts what is planned for a page in, for whose entry there is room, and carries its decisions
/// out. It takes no memory.
pub fn enter_planned<S: Storage>(
    parts: &mut Parts,
    page: PageNo,
    planned: Outcome,
    stock: &mut Stock,
    s: &mut S,
    out: &mut Outputs,
) -> Result<(), StepFault>
    requires made { HasMade page parts.old }
    requires page { page < parts.old.home.config.pages }
    requires sizes { HasSizes parts.old.home.config (S.pages s.old) (S.logs s.old) (S.rooms s.old) }
    requires memory { HasMemory (length planned.decisions.items) stock.old out.old }
    requires size { parts.old.home.config.size ≤ stock.old.size }
    ensures comes { (t : LockTable) (ps : List (List ℕ)) (cs : List DiskCall) → table_of (node_of parts.old) page ≡ Some t → S.pages s.old ≡ Some ps → Comes (carry_all page t (settled_of planned) (work_of (node_of parts.old) ps cs out.old)) result (work_of (node_of parts.new) ps cs out.new) }
    ensures parts { AreParts parts.new }
    ensures same { SameNode parts.old.home parts.new.home }
    ensures used { OnOk result (UsesMany (length planned.decisions.items) stock.old stock.new out.old out.new) }
    ensures fault { IfErr result IsReadHalt }
    ensures pages { S.pages s.new ≡ S.pages s.old }
    ensures logs { S.logs s.new ≡ S.logs s.old }
    ensures rooms { S.rooms s.new ≡ S.rooms s.old }
    ensures stops { S.stops s.new ≡ S.stops s.old }
    ensures calm { (l : List (Option ℕ)) → NoneFails (S.failing s.old) parts.old.me l → NoneFails (S.failing s.new) parts.old.me l }
    ensures quiet { (l : List (Option ℕ)) → NoneFails (S.failing s.old) parts.old.me l → halted_by result ≡ None }
    ensures counts { (k : CallKind) → S.faults s.old k ≤ S.faults s.new k }
    ensures cause { (k : CallKind) → halted_by result ≡ Some k → Rose (S.faults s.old k) (S.faults s.new k) }
{
    enter_among(parts, page, planned, stock, s, out)
}

/// The same among some pages with room for their entries, which are put in one after the other: what
/// is planned for the others stays, and so does the room for it. It takes no memory.
pub fn enter_among<S: Storage>(
    parts: &mut Parts,
    page: PageNo,
    planned: Outcome,
    stock: &mut Stock,
    s: &mut S,
    out: &mut Outputs,
) -> Result<(), StepFault>
    requires made { MayEnter page parts.old }
    requires page { page < parts.old.home.config.pages }
    requires sizes { HasSizes parts.old.home.config (S.pages s.old) (S.logs s.old) (S.rooms s.old) }
    requires memory { HasMemory (length planned.decisions.items) stock.old out.old }
    requires size { parts.old.home.config.size ≤ stock.old.size }
    ensures comes { (t : LockTable) (ps : List (List ℕ)) (cs : List DiskCall) → table_of (node_of parts.old) page ≡ Some t → S.pages s.old ≡ Some ps → Comes (carry_all page t (settled_of planned) (work_of (node_of parts.old) ps cs out.old)) result (work_of (node_of parts.new) ps cs out.new) }
    ensures parts { (ps : List ℕ) → AreTidyBut (page ∷ ps) parts.old.tables → ArePartsBut ps parts.new }
    ensures tables { lock_tables parts.new.tables.places ≡ with_entry_at (lock_tables parts.old.tables.places) (page % parts.old.tables.config.nodes) page planned.entry }
    ensures others { (p : ℕ) → p ≢ page → made_at parts.new.tables p ≡ made_at parts.old.tables p }
    ensures view { SameView parts.old parts.new }
    ensures same { SameNode parts.old.home parts.new.home }
    ensures used { OnOk result (UsesMany (length planned.decisions.items) stock.old stock.new out.old out.new) }
    ensures fault { IfErr result IsReadHalt }
    ensures pages { S.pages s.new ≡ S.pages s.old }
    ensures logs { S.logs s.new ≡ S.logs s.old }
    ensures rooms { S.rooms s.new ≡ S.rooms s.old }
    ensures stops { S.stops s.new ≡ S.stops s.old }
    ensures calm { (l : List (Option ℕ)) → NoneFails (S.failing s.old) parts.old.me l → NoneFails (S.failing s.new) parts.old.me l }
    ensures quiet { (l : List (Option ℕ)) → NoneFails (S.failing s.old) parts.old.me l → halted_by result ≡ None }
    ensures counts { (k : CallKind) → S.faults s.old k ≤ S.faults s.new k }
    ensures cause { (k : CallKind) → halted_by result ≡ Some k → Rose (S.faults s.old k) (S.faults s.new k) }
{
    let Outcome {
        entry,
        changed: _changed,
        decisions,
    } = planned;
    let at = OwnPage {
        me: parts.me,
        epoch: parts.epoch,
        page,
        version: entry.version(),
    };
    parts.tables.put(page, entry);
    carry_all(&mut parts.home, at, decisions.as_slice(), stock, s, out)
}
