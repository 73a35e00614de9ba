ghost use Rattle.std.specs.Prelude.{◌≡◌, ℕ, [], true, false, map, IfOk};
ghost use Rattle.std.specs.Option.{option_copied};
ghost use Rattle.node_rules.specs.Words.{pick};
ghost use Rattle.node_rules.specs.OpenTxs.{is_open, locks_of, waits_on, close_tx};
ghost use Rattle.node_rules.specs.NodeState.{runs_at};
ghost use Rattle.node_rules.specs.EndRule.{endings, registered_if};
ghost use Rattle.home_laws.specs.Homes.{AreOnce};
ghost use Rattle.home_laws.specs.EndNeeds.{MayUnpin};
ghost use Rattle.home.specs.Ends.{listed, left, lock_end};
ghost use Rattle.home.specs.Parts.{IsPrepared};

use crate::ending::Ending;
use crate::leave::{end_readers, unpin_all};
use crate::parts::Parts;
use pcl_base::{Held, Kind, NoMemory, Pending, TxId};

impl Parts {
    /// What is told of each page at the end of a transaction that changes nothing.
    pub(crate) fn endings(&self, tx: TxId) -> Result<Vec<Ending>, NoMemory>
        requires { AreOnce (locks_of self.now.home.txs tx) }
        ensures { IfOk result (λ ends. ends.items ≡ endings self.now.home tx false) }
    {
        let locks = self.txs.locks(tx);
        let waiting = self.txs.pending(tx);
        let mut ends = Vec::with_capacity(self.alloc, locks.len().saturating_add(1))?;
        for lock in locks {
            ends.push(lock_end(lock, waiting))?;
        }
        match waiting {
            None => Ok(ends),
            Some(access) => {
                if self.txs.held(tx, access.page).is_some() {
                    return Ok(ends);
                }
                ends.push(Ending {
                    page: access.page,
                    kind: Kind::Registered,
                    change: None,
                })?;
                Ok(ends)
            }
        }
    }

    /// A transaction without private copies is closed: these pages, at which its end is told, are
    /// unpinned, and it reads no more under their rights. It takes no memory.
    pub(crate) fn close_tx(&mut self, tx: TxId, ends: &[Ending])
        requires open { is_open self.old.home.txs tx ≡ true }
        requires pins { MayUnpin (map (λ e. e.page) ends.now) self.old.home.pool }
        requires noted { (p : ℕ) → listed (map (λ e. e.page) ends.now) p ≡ false → runs_at self.old.home.written tx p ≡ [] }
        ensures home { self.new.home ≡ left self.old.home tx (map (λ e. e.page) ends.now) }
        ensures prepared { IsPrepared self.old → IsPrepared self.new }
    {
        unpin_all(&mut self.pool, ends);
        end_readers(&mut self.shelf, tx, ends);
        self.written.forget(tx, ends);
        self.end_tx(tx);
    }

    /// A transaction is open no more.
    fn end_tx(&mut self, tx: TxId)
        requires { is_open self.old.home.txs tx ≡ true }
        ensures home { self.new.home ≡ record self.old.home { txs = close_tx self.old.home.txs tx } }
        ensures prepared { IsPrepared self.old → IsPrepared self.new }
    {
        match self.txs.end(tx) {
            Some(_ended) => return,
            None => return,
        }
    }
}

/// What is told of a page that is held, where it isn't changed.
fn lock_end(lock: &Held, waiting: Option<&Pending>) -> Ending
    ensures { result ≡ lock_end (option_copied waiting.entry) lock.now }
{
    Ending {
        page: lock.page,
        kind: kind_at_end(lock, waiting),
        change: None,
    }
}

/// By what a page is held at the end: one that is waited for counts as registered, unless it is an own
/// one.
fn kind_at_end(lock: &Held, waiting: Option<&Pending>) -> Kind
    ensures { result ≡ registered_if (waits_on (option_copied waiting.entry) lock.now.page) lock.now.kind }
{
    match lock.kind {
        Kind::Own => Kind::Own,
        Kind::Registered => Kind::Registered,
        Kind::Right => right_at_end(lock, waiting),
    }
}

/// The same of a page that is held under a right.
fn right_at_end(lock: &Held, waiting: Option<&Pending>) -> Kind
    ensures { result ≡ pick (waits_on (option_copied waiting.entry) lock.now.page) Kind.Registered Kind.Right }
{
    match waiting {
        None => Kind::Right,
        Some(access) => {
            if access.page == lock.page {
                return Kind::Registered;
            }
            Kind::Right
        }
    }
}
