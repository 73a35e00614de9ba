ghost use Rattle.std.specs.Prelude.{◌≡◌, ◌≢◌, ℕ, List, ◌<◌, ◌≤◌, ◌+◌, ◌&&◌, not, Some, None, true, false, is_some, length, IfSome, IfOk, IfErr, OnOk, OnErr, Err};
ghost use Rattle.pcl_base.specs.Faults.{Rose};
ghost use Rattle.pcl_base.specs.declared.trace.Call.{Call as CallKind};
ghost use Rattle.disk_model.specs.Disk.{HasSizes};
ghost use Rattle.disk_model.specs.Stops.{Fate, Done, Stopped, reading_fate};
ghost use Rattle.node_rules.specs.Words.{same_mode, is_exclusive};
ghost use Rattle.node_rules.specs.OpenTxs.{pending_of, waits_as};
ghost use Rattle.node_rules.specs.Shelf.{right_on, accept};
ghost use Rattle.node_rules.specs.AccessRule.{on_grant, image_of, kind_of, shelf_after, readers_after};
ghost use Rattle.home_laws.specs.Homes.{IsHome};
ghost use Rattle.home.specs.declared.fault.HomeFault.TheVariants.{NoMemory as no_memory};
ghost use Rattle.home.specs.Device.{work_on};
ghost use Rattle.home.specs.Grants.{work_at, Tells, ByImage, arrival, part_of, with_shelf, is_awaited, wants_right, IsGrantFault, is_read_failed, is_read_fault, is_read, after_reading};
ghost use Rattle.home.specs.Parts.{IsPrepared};

use crate::fault::HomeFault;
use crate::home::Home;
use crate::parts::Parts;
use disk_model::{Call, Storage};
use pcl_base::{Grant, Held, Kind, Mode, NoMemory, PageNo, Reply, TxId, Version};

impl Home {
    /// A grant arrives, where `owned` tells whether the node owns the page. Where its transaction
    /// waits for that page and mode, it gets its lock, its access is done, and the reply is answered;
    /// the right that comes with the grant is accepted. Else the answer is `None`, and only a right
    /// is accepted of which the node has none.
    ///
    /// `Failed` of a read comes only where the count of reads rose, and `Differs` where the stored
    /// page has another number or version. `NoMemory` comes only where nobody waits and a right is to
    /// be accepted. Each leaves all as before. Where the pages aren't told, the answer is that of the
    /// rule for some content of the page. The access rule is carried out here.
    pub fn on_grant<S: Storage>(
        &mut self,
        g: &Grant,
        owned: bool,
        s: &mut S,
    ) -> Result<Option<Reply>, HomeFault>
        requires image { IfSome (image_of g.now.copy) (λ b. length b ≡ self.old.config.size) }
        requires sizes { HasSizes self.old.config (S.pages s.old) (S.logs s.old) (S.rooms s.old) }
        ensures told { (ps : List (List ℕ)) → S.pages s.old ≡ Some ps → Tells (arrival (on_grant g.now owned (work_at ps self.old))) result self.new }
        ensures image { IfOk result (λ r. ByImage g.now.page g.now.version (image_of g.now.copy) (λ i. arrival (on_grant (record g.now { copy = part_of i }) owned (work_on self.old))) self.old r self.new) }
        ensures awaited { IfOk result (λ r. is_some r ≡ is_awaited g.now self.old) }
        ensures memory { result ≡ Err no_memory → wants_right g.now self.old ≡ true }
        ensures fault { IfErr result (IsGrantFault g.now.page) }
        ensures err { OnErr result (self.new ≡ self.old) }
        ensures pages { S.pages s.new ≡ S.pages s.old }
        ensures logs { S.logs s.new ≡ S.logs s.old }
        ensures rooms { S.rooms s.new ≡ S.rooms s.old }
        ensures stops { S.stops s.new ≡ S.stops s.old }
        ensures failing { S.failing s.new ≡ after_reading (is_awaited g.now self.old && is_read g.now.page g.now.version (image_of g.now.copy) self.old) (S.failing s.old) self.old.txs.node }
        ensures done { reading_fate (S.failing s.old) self.old.txs.node ≡ Fate.Done → is_read_failed result ≡ false }
        ensures stopped { (kept : ℕ) → (is_awaited g.now self.old && is_read g.now.page g.now.version (image_of g.now.copy) self.old) ≡ true → reading_fate (S.failing s.old) self.old.txs.node ≡ Fate.Stopped kept → is_read_failed result ≡ true }
        ensures unread { (is_awaited g.now self.old && is_read g.now.page g.now.version (image_of g.now.copy) self.old) ≡ false → is_read_fault result ≡ false }
        ensures counts { (k : CallKind) → S.faults s.old k ≤ S.faults s.new k }
        ensures cause { is_read_failed result ≡ true → Rose (S.faults s.old Call.Read) (S.faults s.new Call.Read) }
    {
        if self.parts.waits_as(g.tx, g.page, g.mode) {
            return self.parts.arrive(g, owned, s);
        }
        self.parts.ignore(g)
    }
}

impl Parts {
    /// A grant for which its transaction waits.
    fn arrive<S: Storage>(
        &mut self,
        g: &Grant,
        owned: bool,
        s: &mut S,
    ) -> Result<Option<Reply>, HomeFault>
        requires home { IsHome self.old.home }
        requires prepared { IsPrepared self.old }
        requires awaited { is_awaited g.now self.old.home ≡ true }
        requires image { IfSome (image_of g.now.copy) (λ b. length b ≡ self.old.home.config.size) }
        requires sizes { HasSizes self.old.home.config (S.pages s.old) (S.logs s.old) (S.rooms s.old) }
        ensures told { (ps : List (List ℕ)) → S.pages s.old ≡ Some ps → Tells (arrival (on_grant g.now owned (work_at ps self.old.home))) result self.new.home }
        ensures image { IfOk result (λ r. ByImage g.now.page g.now.version (image_of g.now.copy) (λ i. arrival (on_grant (record g.now { copy = part_of i }) owned (work_on self.old.home))) self.old.home r self.new.home) }
        ensures prepared { IsPrepared self.new }
        ensures some { IfOk result (λ r. is_some r ≡ true) }
        ensures memory { result ≢ Err no_memory }
        ensures fault { IfErr result (IsGrantFault g.now.page) }
        ensures err { OnErr result (self.new ≡ self.old) }
        ensures pages { S.pages s.new ≡ S.pages s.old }
        ensures logs { S.logs s.new ≡ S.logs s.old }
        ensures rooms { S.rooms s.new ≡ S.rooms s.old }
        ensures stops { S.stops s.new ≡ S.stops s.old }
        ensures failing { S.failing s.new ≡ after_reading (is_read g.now.page g.now.version (image_of g.now.copy) self.old.home) (S.failing s.old) self.old.home.txs.node }
        ensures done { reading_fate (S.failing s.old) self.old.home.txs.node ≡ Fate.Done → is_read_failed result ≡ false }
        ensures stopped { (kept : ℕ) → is_read g.now.page g.now.version (image_of g.now.copy) self.old.home ≡ true → reading_fate (S.failing s.old) self.old.home.txs.node ≡ Fate.Stopped kept → is_read_failed result ≡ true }
        ensures unread { is_read g.now.page g.now.version (image_of g.now.copy) self.old.home ≡ false → is_read_fault result ≡ false }
        ensures counts { (k : CallKind) → S.faults s.old k ≤ S.faults s.new k }
        ensures cause { is_read_failed result ≡ true → Rose (S.faults s.old Call.Read) (S.faults s.new Call.Read) }
    {
        let lock = Held {
            page: g.page,
            mode: g.mode,
            kind: kind_of(owned, g.right),
        };
        let reply = self.grant(g.tx, lock, g.version, &g.copy, s)?;
        self.change_readers(g);
        Ok(Some(reply))
    }

    /// The right of a grant is accepted and its transaction reads under it, or reads no more where
    /// the grant has none. It takes no memory.
    fn change_readers(&mut self, g: &Grant)
        requires { 1 ≤ self.old.rights }
        ensures home { self.new.home ≡ with_shelf (readers_after g.now (shelf_after g.now self.old.home.shelf)) self.old.home }
        ensures same { self.new ≡ record self.old { home = self.new.home; marks = self.new.marks; rights = self.new.rights } }
        ensures rights { self.old.rights ≤ self.new.rights + 1 }
    {
        if g.right {
            let _new = self.shelf.accept(g.page, g.version).unwrap();
            self.shelf.add_reader(g.page, g.tx).unwrap();
            return;
        }
        self.shelf.end_reader(g.page, g.tx);
    }

    /// A grant for which its transaction doesn't wait any more.
    fn ignore(&mut self, g: &Grant) -> Result<Option<Reply>, HomeFault>
        ensures ok { OnOk result (self.new.home ≡ with_shelf (shelf_after g.now self.old.home.shelf) self.old.home) }
        ensures none { IfOk result (λ r. r ≡ None) }
        ensures prepared { IsPrepared self.old → IsPrepared self.new }
        ensures fault { IfErr result (λ e. e ≡ no_memory) }
        ensures memory { OnErr result ((g.now.right && not (is_some (right_on self.old.home.shelf g.now.page))) ≡ true) }
        ensures err { OnErr result (self.new ≡ self.old) }
    {
        if g.right && !self.shelf.has(g.page) {
            self.accept_right(g.page, g.version)?;
            return Ok(None);
        }
        Ok(None)
    }

    /// A right comes into being, with memory of its own.
    fn accept_right(&mut self, page: PageNo, version: Version) -> Result<(), NoMemory>
        ensures ok { OnOk result (self.new.home ≡ with_shelf (accept self.old.home.shelf page version) self.old.home) }
        ensures prepared { IsPrepared self.old → IsPrepared self.new }
        ensures err { OnErr result (self.new ≡ self.old) }
    {
        let Some(rights) = self.txs.wait_count().checked_add(1) else {
            return Err(NoMemory);
        };
        self.shelf.reserve(rights)?;
        let _new = self.shelf.accept(page, version).unwrap();
        Ok(())
    }

    /// Whether a transaction waits for a page in a mode.
    pub(crate) fn waits_as(&self, tx: TxId, page: PageNo, mode: Mode) -> bool
        ensures { result ≡ waits_as (pending_of self.now.home.txs tx) page mode }
    {
        match self.txs.pending(tx) {
            None => false,
            Some(access) => access.page == page && is_same_mode(access.mode, mode),
        }
    }
}

/// The kind of lock that a grant gives.
fn kind_of(owned: bool, right: bool) -> Kind
    ensures { result ≡ kind_of owned right }
{
    if owned {
        return Kind::Own;
    }
    if right {
        return Kind::Right;
    }
    Kind::Registered
}

/// Whether two modes are the same.
fn is_same_mode(one: Mode, other: Mode) -> bool
    ensures { result ≡ same_mode one other }
{
    match one {
        Mode::Shared => !is_exclusive(other),
        Mode::Exclusive => is_exclusive(other),
    }
}

/// Whether a mode is exclusive.
fn is_exclusive(mode: Mode) -> bool
    ensures { result ≡ is_exclusive mode }
{
    match mode {
        Mode::Shared => false,
        Mode::Exclusive => true,
    }
}
