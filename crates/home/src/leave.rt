ghost use Rattle.std.specs.Prelude.{◌≡◌, ◌||◌, ℕ, None, is_some, map};
ghost use Rattle.std.specs.Option.{option_copied};
ghost use Rattle.std.specs.List.{fold};
ghost use Rattle.node_rules.specs.Words.{is_exclusive};
ghost use Rattle.node_rules.specs.OpenTxs.{lock_on};
ghost use Rattle.node_rules.specs.Shelf.{end_reader};
ghost use Rattle.node_rules.specs.BufferRule.{has_private, discard};
ghost use Rattle.node_rules.specs.EndRule.{discard_all, unpin_all};
ghost use Rattle.home_laws.specs.Homes.{AreOnce, is_exclusive_lock, is_write_of};
ghost use Rattle.home_laws.specs.EndNeeds.{MayUnpin};
ghost use Rattle.home.specs.Ends.{discard_last};

use crate::ending::Ending;
use buffer_pool::BufferPool;
use pcl_base::{Held, Mode, PageNo, Pending, TxId};
use read_right::Shelf;

/// Gives up the private copies of a transaction with these locks and this waiting access. It has one
/// for each exclusive lock, and for a write that waits. It takes no memory.
pub(crate) fn discard_all(
    pool: &mut BufferPool,
    tx: TxId,
    locks: &[Held],
    waiting: Option<&Pending>,
)
    requires once { AreOnce locks.now }
    requires private { (p : ℕ) → has_private pool.old tx p ≡ (is_exclusive_lock (lock_on locks.now p) || is_write_of (option_copied waiting) p) }
    ensures { pool.new ≡ discard_all pool.old tx }
{
    for lock in locks {
        discard_copy(pool, tx, lock, waiting);
    }
    discard_waiting(pool, tx, locks, waiting);
}

/// Gives up the private copy of a lock's page, where there is one.
#[tactic(auto, using(crate::proofs::Discarded::discard_none))]
fn discard_copy(pool: &mut BufferPool, tx: TxId, lock: &Held, waiting: Option<&Pending>)
    requires { has_private pool.old tx lock.now.page ≡ (is_exclusive lock.now.mode || is_write_of (option_copied waiting) lock.now.page) }
    ensures { pool.new ≡ discard pool.old tx lock.now.page }
{
    if has_copy(lock, waiting) {
        pool.discard(tx, lock.page);
        return;
    }
}

/// Gives up the private copy of a write that waits for a page without a lock.
fn discard_waiting(pool: &mut BufferPool, tx: TxId, locks: &[Held], waiting: Option<&Pending>)
    requires private { (p : ℕ) → lock_on locks.now p ≡ None → has_private pool.old tx p ≡ is_write_of (option_copied waiting) p }
    ensures { pool.new ≡ discard_last pool.old tx locks.now (option_copied waiting.entry) }
{
    match waiting {
        None => return,
        Some(access) => {
            if access.write.is_some() && !holds(locks, access.page) {
                pool.discard(tx, access.page);
            }
        }
    }
}

/// Whether one of the locks is on a page.
fn holds(locks: &[Held], page: PageNo) -> bool
    ensures { result ≡ is_some (lock_on locks.now page) }
{
    for lock in locks {
        if lock.page == page {
            return true;
        }
    }
    false
}

/// Whether a transaction with this lock and this waiting access has a private copy of the lock's page.
fn has_copy(lock: &Held, waiting: Option<&Pending>) -> bool
    ensures { result ≡ (is_exclusive lock.now.mode || is_write_of (option_copied waiting.entry) lock.now.page) }
{
    match lock.mode {
        Mode::Exclusive => true,
        Mode::Shared => is_write(waiting, lock.page),
    }
}

/// Whether an access is a write of a page.
fn is_write(waiting: Option<&Pending>, page: PageNo) -> bool
    ensures { result ≡ is_write_of (option_copied waiting.entry) page }
{
    match waiting {
        None => false,
        Some(access) => access.page == page && access.write.is_some(),
    }
}

/// Takes a pin off each page at which an end is told; each of them has one. It takes no memory.
pub(crate) fn unpin_all(pool: &mut BufferPool, ends: &[Ending])
    requires { MayUnpin (map (λ e. e.page) ends.now) pool.old }
    ensures { pool.new ≡ unpin_all pool.old (map (λ e. e.page) ends.now) }
{
    for end in ends {
        pool.unpin(end.page);
    }
}

/// The transaction reads no more under the rights of these pages. It takes no memory.
pub(crate) fn end_readers(shelf: &mut Shelf, tx: TxId, ends: &[Ending])
    ensures rights { shelf.new.rights ≡ fold (λ rs p. end_reader rs p tx) shelf.old.rights (map (λ e. e.page) ends.now) }
    ensures spare { shelf.new.spare ≡ shelf.old.spare }
{
    for end in ends {
        shelf.end_reader(end.page, tx);
    }
}
