ghost use Rattle.std.specs.Prelude.{◌≡◌};
ghost use Rattle.std.specs.List.{fold};
ghost use Rattle.node_rules.specs.OpenTxs.{held_by};
ghost use Rattle.node_rules.specs.BufferRule.{publish};
ghost use Rattle.node_rules.specs.EndRule.{is_own_kind, is_own_lock};
ghost use Rattle.home_laws.specs.EndNeeds.{MayPublish};

use buffer_pool::BufferPool;
use pcl_base::{Kind, PageNo, TxId};
use tx_table::TxTable;

/// The private copies of these pages become their copies at the next version, dirty where the page is
/// held by an own lock. It takes no memory.
pub(crate) fn publish_all(pool: &mut BufferPool, txs: &TxTable, tx: TxId, pages: &[PageNo])
    requires { MayPublish tx pages.now pool.old }
    ensures { pool.new ≡ fold (λ b p. publish b tx p (is_own_lock (held_by txs.now tx p))) pool.old pages.now }
{
    for page in pages {
        pool.publish(tx, *page, is_own(txs, tx, *page));
    }
}

/// Whether a page is held by an own lock.
fn is_own(txs: &TxTable, tx: TxId, page: PageNo) -> bool
    ensures { result ≡ is_own_lock (held_by txs.now tx page) }
{
    match txs.held(tx, page) {
        None => false,
        Some(lock) => is_own_kind(lock.kind),
    }
}

/// Whether a lock is of the node's own page.
fn is_own_kind(kind: Kind) -> bool
    ensures { result ≡ is_own_kind kind }
{
    match kind {
        Kind::Own => true,
        Kind::Registered => false,
        Kind::Right => false,
    }
}
