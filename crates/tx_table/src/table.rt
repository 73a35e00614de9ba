ghost use Rattle.std.specs.Prelude.{◌≡◌, ℕ, ◌+◌, ◌-◌, ◌^◌, ◌≤◌, ◌<◌, ◌↔◌, ◌==◌, [], None, Some, IfOk, IfSome, IfNone, OnSome, OnOk, OnErr, IsOk, true, is_some, not, length, map};
ghost use Rattle.std.specs.List.{filter};
ghost use Rattle.std.specs.Option.{option_copied};
ghost use Rattle.tx_table.specs.Counts.{lock_count, wait_count};
ghost use Rattle.tx_table.specs.Links.{IsNumbered};
ghost use Rattle.node_rules.specs.OpenTxs.{OpenTx, OpenTxs, begin, open_at, is_open, is_own, locks_of, held_by, pending_of, name_of, close_tx, with_serial, lock_on, add, wait, set_kind, waits_on};

use crate::open::Open;
use crate::slots::Slots;
use pcl_base::{Ended, Held, Items, Kind, NoMemory, NodeNo, PageNo, Pending, TxId};
use std::alloc::Global;
use std::marker::Model;
use thiserror::Error;

/// The most transactions that are open at a node.
const MOST_OPEN: usize = 1024;

/// Why a transaction wasn't opened. Nothing was changed.
#[derive(Clone, Copy, Debug, Error, PartialEq, Eq)]
pub enum BeginFault {
    /// The node's last serial is 4,294,967,295.
    #[error("SerialEnd")]
    SerialEnd,
    /// The node has 1,024 open transactions.
    #[error("TooMany")]
    TooMany,
    /// Want of memory.
    #[error("NoMemory")]
    NoMemory,
}

/// The open transactions of a node since one birth. Contracts see them as a list by serial;
/// serials rise, so each is the one that its name finds (`numbered`).
#[derive(Drop)]
pub struct TxTable {
    alloc: Global,
    node: NodeNo,
    born: u32,
    last: u32,
    txs: Slots,
    /// The number of their locks.
    locks: usize,
    /// The number of their waiting accesses.
    waits: usize,
}

impl Model for TxTable {
    ghost use Rattle.std.specs.Map.{values_of};
    ghost use Rattle.node_rules.specs.OpenTxs.{OpenTxs};
    ghost use Rattle.tx_table.specs.Counts.{IsCounted};

    ghost Value = { OpenTxs };

    ghost view = { λ t. record { node = t.node; born = t.born; last = t.last; txs = values_of t.txs } };

    ghost invariant = { λ t. IsCounted t.last t.txs t.locks t.waits };
}

impl TxTable {
    /// No open transaction; `first`, at least 1, is the next serial. It takes no memory.
    pub fn open(alloc: Global, node: NodeNo, born: u32, first: u32) -> TxTable
        requires { 1 ≤ first }
        ensures { result ≡ record { node = node; born = born; last = first - 1; txs = [] } }
    {
        TxTable {
            alloc,
            node,
            born,
            last: first - 1,
            txs: Slots::new(alloc),
            locks: 0,
            waits: 0,
        }
    }

    /// Opens a transaction of the next serial: `SerialEnd` exactly where there is none, else
    /// `TooMany` exactly where 1,024 are open, else perhaps `NoMemory`.
    #[tactic(auto, unfolding(node_rules::specs::OpenTxs::begin))]
    pub fn begin(&mut self) -> Result<TxId, BeginFault>
        ensures ok { OnOk result (self.new ≡ begin self.old) }
        ensures name { IfOk result (λ t. t ≡ name_of self.old (self.old.last + 1)) }
        ensures serial_end { (result ≡ Err BeginFault.SerialEnd) ↔ (self.old.last ≡ 4_294_967_295) }
        ensures too_many { result ≡ Err BeginFault.TooMany → 1024 ≤ length self.old.txs }
        ensures some { OnOk result (length self.old.txs < 1024) }
        ensures no_memory { result ≡ Err BeginFault.NoMemory → length self.old.txs < 1024 }
        ensures err { OnErr result (self.new ≡ self.old) }
    {
        if self.last == u32::MAX {
            return Err(BeginFault::SerialEnd);
        }
        if self.txs.len() >= MOST_OPEN {
            return Err(BeginFault::TooMany);
        }
        match self.open_next() {
            Ok(()) => Ok(TxId {
                node: self.node,
                born: self.born,
                serial: self.last,
            }),
            Err(_) => Err(BeginFault::NoMemory),
        }
    }

    /// Opens a transaction of the next serial, which is there.
    #[tactic(auto, unfolding(node_rules::specs::OpenTxs::begin))]
    fn open_next(&mut self) -> Result<(), NoMemory>
        requires { self.old.last < 4_294_967_295 }
        ensures ok { OnOk result (self.new ≡ begin self.old) }
        ensures err { OnErr result (self.new ≡ self.old) }
    {
        let serial = self.last + 1;
        self.txs.push(serial, Open::new(self.alloc, serial))?;
        self.last = serial;
        Ok(())
    }

    /// The last serial that was given, `first` minus one at first.
    pub fn last(&self) -> u32
        ensures value { result ≡ self.now.last }
        ensures numbered { IsNumbered self.now }
    {
        self.last
    }

    /// The number of open transactions.
    pub fn count(&self) -> usize
        ensures value { result ≡ length self.now.txs }
        ensures numbered { IsNumbered self.now }
    {
        self.txs.len()
    }

    /// The number of the locks of all open transactions.
    pub fn lock_count(&self) -> usize
        ensures { result ≡ lock_count self.now.txs }
    {
        self.locks
    }

    /// The number of the waiting accesses of all open transactions.
    pub fn wait_count(&self) -> usize
        ensures { result ≡ wait_count self.now.txs }
    {
        self.waits
    }

    /// Whether a transaction's name is one of this node and birth.
    fn is_own(&self, tx: TxId) -> bool
        ensures value { result ≡ is_own self.now tx }
        ensures numbered { IsNumbered self.now }
    {
        tx.node == self.node && tx.born == self.born
    }

    /// The open transaction of that name.
    fn find(&self, tx: TxId) -> Option<&Open>
        ensures value { option_copied result ≡ open_at self.now tx }
        ensures numbered { IsNumbered self.now }
    {
        if !self.is_own(tx) {
            return None;
        }
        self.txs.get(tx.serial)
    }

    /// Whether that transaction is open.
    pub fn is_open(&self, tx: TxId) -> bool
        ensures value { result ≡ is_open self.now tx }
        ensures numbered { IsNumbered self.now }
    {
        self.find(tx).is_some()
    }

    /// Its locks in the order of first access, none where it isn't open.
    pub fn locks(&self, tx: TxId) -> &[Held]
        ensures value { result.now ≡ locks_of self.now tx }
        ensures numbered { IsNumbered self.now }
    {
        match self.find(tx) {
            None => &[],
            Some(open) => open.pages(),
        }
    }

    /// The transaction's lock on a page.
    pub fn held(&self, tx: TxId, page: PageNo) -> Option<Held>
        ensures { result ≡ held_by self.now tx page }
    {
        lock_on(self.locks(tx), page)
    }

    /// The access for which the transaction waits.
    pub fn pending(&self, tx: TxId) -> Option<&Pending>
        ensures value { option_copied result ≡ pending_of self.now tx }
        ensures numbered { IsNumbered self.now }
    {
        match self.find(tx) {
            None => None,
            Some(open) => open.waiting(),
        }
    }

    /// Gives an open transaction a lock, in the place of its lock on that page, else last. It ends
    /// a waiting access of that page. It wants no memory where the page is held or waited for.
    pub fn add(&mut self, tx: TxId, lock: Held) -> Result<(), NoMemory>
        requires { is_open self.old tx ≡ true }
        ensures ok { OnOk result (self.new ≡ add self.old tx lock) }
        ensures err { OnErr result (self.new ≡ self.old) }
        ensures held { is_some (held_by self.old tx lock.page) ≡ true → IsOk result }
        ensures waits { waits_on (pending_of self.old tx) lock.page ≡ true → IsOk result }
    {
        let room = self.room();
        let open = self.txs.at(tx.serial);
        let before = open.sizes();
        open.add(lock, room)?;
        let after = open.sizes();
        self.locks = self.locks - before.0 + after.0;
        self.waits = self.waits - before.1 + after.1;
        Ok(())
    }

    /// How many more locks and waiting accesses can be counted.
    fn room(&self) -> usize
        ensures { result + (lock_count self.now.txs + wait_count self.now.txs) ≡ 2 ^ 64 - 1 }
    {
        usize::MAX - (self.locks + self.waits)
    }

    /// Lets an open transaction, which has no waiting access, wait for one.
    pub fn wait(&mut self, tx: TxId, access: Pending) -> Result<(), NoMemory>
        requires open { is_open self.old tx ≡ true }
        requires none { pending_of self.old tx ≡ None }
        ensures ok { OnOk result (self.new ≡ wait self.old tx access) }
        ensures err { OnErr result (self.new ≡ self.old) }
    {
        if self.room() == 0 {
            return Err(NoMemory);
        }
        self.txs.at(tx.serial).wait(access)?;
        self.waits += 1;
        Ok(())
    }

    /// Gives a lock of an open transaction another kind, and changes nothing else. It takes no
    /// memory.
    pub fn set_kind(&mut self, tx: TxId, page: PageNo, kind: Kind)
        requires open { is_open self.old tx ≡ true }
        requires lock { is_some (held_by self.old tx page) ≡ true }
        ensures { self.new ≡ set_kind self.old tx page kind }
    {
        self.txs.at(tx.serial).set_kind(page, kind);
    }

    /// The names of the open transactions, by serial.
    pub fn ids(&self) -> Result<Vec<TxId>, NoMemory>
        ensures names { IfOk result (λ ts. ts.items ≡ map (λ x. name_of self.now x.serial) self.now.txs) }
        ensures numbered { IsNumbered self.now }
    {
        self.txs.names(self.alloc, self.node, self.born)
    }

    /// Ends a transaction: its pages in the order of first access and the access that waited.
    /// None exactly where it isn't open, and nothing is changed then.
    #[tactic(auto, unfolding(node_rules::specs::OpenTxs::close_tx))]
    pub fn end(&mut self, tx: TxId) -> Option<Ended>
        ensures some { is_some result ≡ is_open self.old tx }
        ensures ended { IfSome result (λ e. (e.pages ≡ locks_of self.old tx) × (e.waiting ≡ pending_of self.old tx)) }
        ensures closed { OnSome result (self.new ≡ close_tx self.old tx) }
        ensures none { IfNone result (self.new ≡ self.old) }
    {
        if !self.is_own(tx) {
            return None;
        }
        match self.take(tx.serial) {
            None => None,
            Some(open) => Some(open.ended()),
        }
    }

    /// Takes the transaction of a serial out.
    fn take(&mut self, serial: u32) -> Option<Open>
        ensures value { result ≡ with_serial self.old.txs serial }
        ensures closed { OnSome result (self.new ≡ record self.old { txs = filter (λ x. not (x.serial == serial)) self.old.txs }) }
        ensures none { IfNone result (self.new ≡ self.old) }
    {
        match self.txs.remove(serial) {
            None => None,
            Some(open) => {
                let (locks, waits) = open.sizes();
                self.locks -= locks;
                self.waits -= waits;
                Some(open)
            }
        }
    }
}

/// The lock on a page.
fn lock_on(locks: &[Held], page: PageNo) -> Option<Held>
    ensures { result ≡ lock_on locks.now page }
{
    for lock in locks {
        if lock.page == page {
            return Some(*lock);
        }
    }
    None
}
