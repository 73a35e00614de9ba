ghost use Rattle.std.specs.Prelude.{◌≡◌, ◌++◌, Some, IfOk, OnOk, OnErr};
ghost use Rattle.node_rules.specs.LockRule.{LockEntry, idle, ask, end_tx, takes_change, returned, register, reported, reported_right, purge, holders_without, waiting_without, settle};

mod turns;

use crate::find::{covers, has_right, mode_of, waits};
use crate::members::{
    drop_holder, drop_right, drop_waiter, keep_holders, keep_rights, keep_waiting, register,
};
use pcl_base::{Decision, Holder, Mode, NoMemory, NodeNo, RightMark, TxId, Version, Waiter};
use smallvec::SmallVec;
use std::alloc::Global;
use std::marker::Model;

/// One page's lock entry. Contracts see its version and its three lists, whatever room they have.
#[derive(Clone, Debug, Drop)]
pub struct Entry {
    version: Version,
    holders: SmallVec<Holder, 2>,
    rights: SmallVec<RightMark, 2>,
    waiting: SmallVec<Waiter, 2>,
}

impl Model for Entry {
    ghost use Rattle.node_rules.specs.LockRule.{LockEntry};

    ghost Value = { LockEntry };

    ghost view = { λ e. record { version = e.version; holders = e.holders.items; rights = e.rights.items; waiting = e.waiting.items } };
}

impl Entry {
    /// An entry with empty lists. It takes no memory.
    pub fn new(alloc: Global, version: Version) -> Entry
        ensures { result ≡ idle version }
    {
        Entry {
            version,
            holders: SmallVec::new(alloc),
            rights: SmallVec::new(alloc),
            waiting: SmallVec::new(alloc),
        }
    }

    /// An equal entry in memory of its own.
    pub fn copy(&self) -> Result<Entry, NoMemory>
        ensures { IfOk result (λ e. e ≡ self.now) }
    {
        Ok(Entry {
            version: self.version,
            holders: SmallVec::from_slice(*self.holders.allocator(), self.holders.as_slice())?,
            rights: SmallVec::from_slice(*self.rights.allocator(), self.rights.as_slice())?,
            waiting: SmallVec::from_slice(*self.waiting.allocator(), self.waiting.as_slice())?,
        })
    }

    /// The page's version.
    pub fn version(&self) -> Version
        ensures { result ≡ self.now.version }
    {
        self.version
    }

    /// The transactions that hold the page, in the order in which they came to.
    pub fn holders(&self) -> &[Holder]
        ensures { result.now ≡ self.now.holders }
    {
        self.holders.as_slice()
    }

    /// The nodes that have the right to read the page, in the order in which they got it.
    pub fn rights(&self) -> &[RightMark]
        ensures { result.now ≡ self.now.rights }
    {
        self.rights.as_slice()
    }

    /// The transactions that wait for the page, in the order in which they asked.
    pub fn waiting(&self) -> &[Waiter]
        ensures { result.now ≡ self.now.waiting }
    {
        self.waiting.as_slice()
    }

    /// Changes the version alone.
    pub fn set_version(&mut self, v: Version)
        ensures { self.new ≡ record self.old { version = v } }
    {
        self.version = v;
    }

    /// Puts a request last among those that wait, unless its transaction waits already, holds the
    /// page exclusively, or asks for the shared mode while it holds the page.
    #[tactic(auto, unfolding(node_rules::specs::LockRule::ask))]
    pub fn ask(&mut self, w: Waiter) -> Result<(), NoMemory>
        ensures ok { OnOk result (self.new ≡ ask self.old w) }
        ensures err { OnErr result (self.new ≡ self.old) }
    {
        if waits(self.waiting.as_slice(), w.tx)
            || covers(mode_of(self.holders.as_slice(), w.tx), w.mode)
        {
            return Ok(());
        }
        self.waiting.push(w)?;
        Ok(())
    }

    /// Ends a transaction: it leaves the holders and those that wait. True exactly where its
    /// change was taken: it held the page exclusively, and the change is of the next version,
    /// which the entry has from then on.
    #[tactic(auto, unfolding(node_rules::specs::LockRule::end_tx, node_rules::specs::LockRule::takes_change))]
    pub fn end(&mut self, tx: TxId, change: Option<Version>) -> bool
        ensures taken { result ≡ takes_change self.old tx change }
        ensures ended { self.new ≡ end_tx self.old tx change }
    {
        match change {
            None => {
                self.remove(tx);
                false
            }
            Some(version) => self.end_with(tx, version),
        }
    }

    /// Ends a transaction that brings a change.
    #[tactic(auto, unfolding(node_rules::specs::LockRule::end_tx, node_rules::specs::LockRule::takes_change))]
    fn end_with(&mut self, tx: TxId, version: Version) -> bool
        ensures taken { result ≡ takes_change self.old tx (Some version) }
        ensures ended { self.new ≡ end_tx self.old tx (Some version) }
    {
        let held = mode_of(self.holders.as_slice(), tx);
        let taken = held == Some(Mode::Exclusive) && version.checked_sub(1) == Some(self.version);
        self.remove(tx);
        if taken {
            self.version = version;
            return true;
        }
        false
    }

    /// Takes a transaction out of the holders and of those that wait.
    fn remove(&mut self, tx: TxId)
        ensures { self.new ≡ record self.old { holders = holders_without self.old.holders tx; waiting = waiting_without self.old.waiting tx } }
    {
        drop_holder(&mut self.holders, tx);
        drop_waiter(&mut self.waiting, tx);
    }

    /// Takes back a node's right. Each named reader that isn't a holder becomes one, shared, in
    /// order. Without such a right nothing changes.
    #[tactic(auto, unfolding(node_rules::specs::LockRule::returned))]
    pub fn returned(&mut self, node: NodeNo, readers: &[TxId]) -> Result<(), NoMemory>
        ensures ok { OnOk result (self.new ≡ returned self.old node readers.now) }
        ensures err { OnErr result (self.new ≡ self.old) }
    {
        if !has_right(self.rights.as_slice(), node) {
            return Ok(());
        }
        self.holders.reserve(readers.len())?;
        drop_right(&mut self.rights, node);
        register(&mut self.holders, readers);
        Ok(())
    }

    /// Puts a lock that a report lists last among the holders, unless its transaction holds the
    /// page already.
    #[tactic(auto, unfolding(node_rules::specs::LockRule::reported))]
    pub fn reported(&mut self, tx: TxId, mode: Mode) -> Result<(), NoMemory>
        ensures ok { OnOk result (self.new ≡ reported self.old tx mode) }
        ensures err { OnErr result (self.new ≡ self.old) }
    {
        if mode_of(self.holders.as_slice(), tx).is_some() {
            return Ok(());
        }
        self.holders.push(Holder { tx, mode })?;
        Ok(())
    }

    /// Puts a right that a report lists last among the rights, not revoked, unless the node has
    /// one already.
    #[tactic(auto, unfolding(node_rules::specs::LockRule::reported_right))]
    pub fn reported_right(&mut self, node: NodeNo) -> Result<(), NoMemory>
        ensures ok { OnOk result (self.new ≡ reported_right self.old node) }
        ensures err { OnErr result (self.new ≡ self.old) }
    {
        if has_right(self.rights.as_slice(), node) {
            return Ok(());
        }
        self.rights.push(RightMark {
            node,
            revoked: false,
        })?;
        Ok(())
    }

    /// Keeps what live nodes have alone. `live` has a flag for each node; a node without one
    /// isn't live.
    #[tactic(auto, unfolding(node_rules::specs::LockRule::purge))]
    pub fn purge(&mut self, live: &[bool])
        ensures { self.new ≡ purge self.old live.now }
    {
        keep_holders(&mut self.holders, live);
        keep_rights(&mut self.rights, live);
        keep_waiting(&mut self.waiting, live);
    }

    /// Grants the page to those that wait, as long as the lock rule lets the next one have it, and
    /// revokes the rights that are in the way of an exclusive request. Answers the decisions in
    /// order.
    #[tactic(auto, unfolding(node_rules::specs::LockRule::settle))]
    pub fn settle(&mut self, owner: NodeNo) -> Result<Vec<Decision>, NoMemory>
        ensures decisions { IfOk result (λ ds. ds.items ≡ (settle owner self.old).decisions) }
        ensures entry { OnOk result (self.new ≡ (settle owner self.old).entry) }
        ensures err { OnErr result (self.new ≡ self.old) }
    {
        let mut decisions = Vec::new(*self.waiting.allocator());
        // Turns are taken on a copy, so that want of memory leaves the entry as it was.
        let mut next = self.copy()?;
        next.take_turns(owner, &mut decisions)?;
        *self = next;
        Ok(decisions)
    }
}
