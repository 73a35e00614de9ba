ghost use Rattle.std.specs.Prelude.{◌≡◌, ℕ, ◌≤◌, None, Bool, true, false, Err, IfOk};
ghost use Rattle.pcl_base.specs.Faults.{Rose};
ghost use Rattle.pcl_base.specs.declared.trace.Call.{Call as Kind};
ghost use Rattle.disk_model.specs.Disk.{HasSizes};
ghost use Rattle.node_rules.specs.AccessRule.{access, is_held, is_allowed};
ghost use Rattle.home_laws.specs.Homes.{IsHome};
ghost use Rattle.home_laws.specs.Refused.{access_refusal, is_bad_range};
ghost use Rattle.home.specs.declared.fault.HomeFault.TheVariants.{Failed as failed};
ghost use Rattle.home.specs.Asked.{asked, next_as, done_as};
ghost use Rattle.home.specs.Answers.{refused_as, home_after, Leaves};
ghost use Rattle.home.specs.Device.{work_on, told_by};
ghost use Rattle.home.specs.Parts.{IsPrepared};

use crate::fault::HomeFault;
use crate::home::Home;
use crate::parts::Parts;
use disk_model::{Call, Storage};
use pcl_base::{Mode, NoMemory, Page, PageNo, Reason, Reply, Request, TxId, Waiter};

/// An access of a page by an open transaction.
#[derive(Debug, Drop, PartialEq)]
pub struct Access {
    /// The transaction.
    pub tx: TxId,
    /// The page.
    pub page: PageNo,
    /// The place and the bytes of a write; none for a read.
    pub write: Option<(u32, Page)>,
}

/// What an access comes to.
#[derive(Debug, Drop, PartialEq)]
pub enum Next {
    /// It is done.
    Now(Reply),
    /// It waits, and goes into the entry of the page, which is the node's own.
    AskOwn(Waiter),
    /// It waits, and a request goes to the owner of the page.
    Send(Request),
}

impl Home {
    /// An access of an open transaction, where `owned` tells whether the node owns the page. It is
    /// refused with `NoTx`, `TxWaits`, `NoPage`, `BadRange` or `NoFrame`, the first that holds.
    ///
    /// An access of a page that is held as it has to be, and a read under the right of the node, are
    /// done at once. Else it takes its frames, for which up to two dirty copies are written, and waits
    /// with the memory that its grant will need. `NoMemory` leaves all as before. After `Failed` the
    /// home is that of the access, and the pages are those up to the write that failed.
    pub fn access<S: Storage>(
        &mut self,
        a: &Access,
        owned: bool,
        s: &mut S,
    ) -> Result<Next, HomeFault>
        requires sizes { HasSizes self.old.config (S.pages s.old) (S.logs s.old) (S.rooms s.old) }
        ensures refused { refused_as result ≡ access_refusal (asked a.now) self.old }
        ensures next { IfOk result (λ n. next_as n ≡ (access (asked a.now) owned (work_on self.old)).next) }
        ensures home { self.new ≡ home_after result self.old (access (asked a.now) owned (work_on self.old)).work.home }
        ensures made { Leaves self.old.txs.node result (access (asked a.now) owned (work_on self.old)).work.calls (told_by (S.pages s.old) (S.logs s.old) (S.stops s.old)) (told_by (S.pages s.new) (S.logs s.new) (S.stops s.new)) }
        ensures sizes { HasSizes self.old.config (S.pages s.new) (S.logs s.new) (S.rooms s.new) }
        ensures rooms { S.rooms s.new ≡ S.rooms s.old }
        ensures failing { S.failing s.new ≡ S.failing s.old }
        ensures counts { (k : Kind) → S.faults s.old k ≤ S.faults s.new k }
        ensures cause { (k : Kind) (kept : Bool) → result ≡ Err (failed k kept) → Rose (S.faults s.old k) (S.faults s.new k) }
    {
        match self.parts.access_refusal(a) {
            Some(reason) => Err(HomeFault::Refused(reason)),
            None => self.parts.access(a, owned, s),
        }
    }
}

impl Parts {
    /// An access that isn't refused.
    fn access<S: Storage>(&mut self, a: &Access, owned: bool, s: &mut S) -> Result<Next, HomeFault>
        requires home { IsHome self.old.home }
        requires prepared { IsPrepared self.old }
        requires none { access_refusal (asked a.now) self.old.home ≡ None }
        requires sizes { HasSizes self.old.home.config (S.pages s.old) (S.logs s.old) (S.rooms s.old) }
        ensures refused { refused_as result ≡ None }
        ensures prepared { IsPrepared self.new }
        ensures next { IfOk result (λ n. next_as n ≡ (access (asked a.now) owned (work_on self.old.home)).next) }
        ensures home { self.new.home ≡ home_after result self.old.home (access (asked a.now) owned (work_on self.old.home)).work.home }
        ensures made { Leaves self.old.node result (access (asked a.now) owned (work_on self.old.home)).work.calls (told_by (S.pages s.old) (S.logs s.old) (S.stops s.old)) (told_by (S.pages s.new) (S.logs s.new) (S.stops s.new)) }
        ensures sizes { HasSizes self.old.home.config (S.pages s.new) (S.logs s.new) (S.rooms s.new) }
        ensures rooms { S.rooms s.new ≡ S.rooms s.old }
        ensures failing { S.failing s.new ≡ S.failing s.old }
        ensures counts { (k : Kind) → S.faults s.old k ≤ S.faults s.new k }
        ensures cause { (k : Kind) (kept : Bool) → result ≡ Err (failed k kept) → Rose (S.faults s.old k) (S.faults s.new k) }
    {
        if self.is_held(a) {
            let reply = self.do_held(a);
            return done(reply);
        }
        if self.is_allowed(a, owned) {
            let reply = self.do_right(a, owned);
            return done(reply);
        }
        self.wait(a, owned, s)
    }

    /// The first reason against an access.
    #[tactic(auto, unfolding(home_laws::specs::Refused::access_refusal))]
    fn access_refusal(&self, a: &Access) -> Option<Reason>
        ensures { result ≡ access_refusal (asked a.now) self.now.home }
    {
        if !self.txs.is_open(a.tx) {
            return Some(Reason::NoTx);
        }
        if self.txs.pending(a.tx).is_some() {
            return Some(Reason::TxWaits);
        }
        if self.config.pages() <= a.page {
            return Some(Reason::NoPage);
        }
        if is_bad_range(self.config.size() as usize, &a.write) {
            return Some(Reason::BadRange);
        }
        if !self.pool.fits(a.tx, a.page, a.write.is_some()) {
            return Some(Reason::NoFrame);
        }
        None
    }

    /// Whether the transaction holds the page as the access asks for.
    fn is_held(&self, a: &Access) -> bool
        ensures { result ≡ is_held (asked a.now) self.now.home }
    {
        match self.txs.held(a.tx, a.page) {
            None => false,
            Some(held) => held.mode == Mode::Exclusive || a.write.is_none(),
        }
    }

    /// Whether the access is a read under the right of the node, which has a copy of its version.
    fn is_allowed(&self, a: &Access, owned: bool) -> bool
        ensures { result ≡ is_allowed (asked a.now) owned self.now.home }
    {
        if owned || a.write.is_some() {
            return false;
        }
        match self.pool.find(a.page) {
            None => false,
            Some(version) => self.shelf.may_read(a.page, version),
        }
    }
}

/// Whether a write is one of no bytes, or of some past the end of the page.
fn is_bad_range(size: usize, write: &Option<(u32, Page)>) -> bool
    requires { size ≤ 4096 }
    ensures { result ≡ is_bad_range size write.now }
{
    match write {
        None => false,
        Some((place, bytes)) => {
            bytes.is_empty() || size < bytes.len() || size - bytes.len() < *place as usize
        }
    }
}

/// The answer of an access that was done at once.
fn done(reply: Result<Reply, NoMemory>) -> Result<Next, HomeFault>
    ensures { result ≡ done_as reply }
{
    match reply {
        Ok(reply) => Ok(Next::Now(reply)),
        Err(NoMemory) => Err(HomeFault::NoMemory),
    }
}
