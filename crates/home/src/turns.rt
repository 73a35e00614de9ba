ghost use Rattle.std.specs.Prelude.{◌≡◌, ◌==◌, ◌%◌, ◌<◌, true, is_some, map};
ghost use Rattle.std.specs.List.{All, fold};
ghost use Rattle.node_rules.specs.OpenTxs.{is_own, held_by, change_tx};
ghost use Rattle.node_rules.specs.BufferRule.{clean};
ghost use Rattle.node_rules.specs.InstallRule.{clean_slots};
ghost use Rattle.home_laws.specs.Homes.{AreSerials};
ghost use Rattle.home.specs.Moves.{with_kinds, kind_if, spend_if, clean_if};

use buffer_pool::BufferPool;
use pcl_base::{Config, Kind, NodeNo, PageNo, TxId, Version};
use read_right::Shelf;
use tx_table::TxTable;

/// Gives the locks of these transactions on pages of a partition another kind. The names are of this
/// node and birth. It takes no memory.
pub(crate) fn turn_all(
    txs: &mut TxTable,
    names: &[TxId],
    config: &Config,
    partition: NodeNo,
    kind: Kind,
)
    requires own { All (λ t. is_own txs.old t ≡ true) names.now }
    requires serials { AreSerials 0 txs.old.last txs.old.txs }
    ensures { txs.new ≡ fold (λ s t. change_tx (with_kinds config.now partition kind) s t) txs.old names.now }
{
    for name in names {
        turn_locks(txs, *name, config, partition, kind);
    }
}

/// The same of one transaction.
fn turn_locks(txs: &mut TxTable, tx: TxId, config: &Config, partition: NodeNo, kind: Kind)
    requires own { is_own txs.old tx ≡ true }
    requires serials { AreSerials 0 txs.old.last txs.old.txs }
    ensures { txs.new ≡ change_tx (with_kinds config.now partition kind) txs.old tx }
{
    for place in 0..txs.locks(tx).len() {
        let page = txs.locks(tx)[place].page;
        turn_lock(txs, tx, page, config, partition, kind);
    }
}

/// The same of one lock, where its page is one of the partition.
fn turn_lock(
    txs: &mut TxTable,
    tx: TxId,
    page: PageNo,
    config: &Config,
    partition: NodeNo,
    kind: Kind,
)
    requires { is_some (held_by txs.old tx page) ≡ true }
    ensures { txs.new ≡ kind_if (page % config.now.nodes == partition) txs.old tx page kind }
{
    if is_of(config, page, partition) {
        txs.set_kind(tx, page, kind);
        return;
    }
}

/// Spends the rights of these pages that are of a partition. It takes no memory.
pub(crate) fn spend_rights(
    shelf: &mut Shelf,
    rights: &[(PageNo, Version)],
    config: &Config,
    partition: NodeNo,
)
    ensures rights { shelf.new.rights ≡ fold (λ rs p. spend_if (p % config.now.nodes == partition) rs p) shelf.old.rights (map (λ r. r.0) rights.now) }
    ensures spare { shelf.new.spare ≡ shelf.old.spare }
{
    for right in rights {
        spend_right(shelf, right.0, config, partition);
    }
}

/// Spends the right of a page, where that is one of the partition.
fn spend_right(shelf: &mut Shelf, page: PageNo, config: &Config, partition: NodeNo)
    ensures rights { shelf.new.rights ≡ spend_if (page % config.now.nodes == partition) shelf.old.rights page }
    ensures spare { shelf.new.spare ≡ shelf.old.spare }
{
    if is_of(config, page, partition) {
        let _readers = shelf.turn(page);
        return;
    }
}

/// The copies of the pages of a partition are clean, where each slot is of a page of the database. It
/// takes no memory.
pub(crate) fn clean_pages(pool: &mut BufferPool, config: &Config, partition: NodeNo)
    requires { All (λ s. s.page < config.now.pages) pool.old.slots }
    ensures { pool.new ≡ record pool.old { slots = clean_slots config.now partition pool.old.slots } }
{
    let nodes = config.nodes();
    for turn in 0..config.pages() / nodes + 1 {
        let page = u32::from(partition) + turn * nodes;
        clean_page(pool, page, config, partition);
    }
}

/// The copy of a page is clean, where that is one of the partition.
fn clean_page(pool: &mut BufferPool, page: PageNo, config: &Config, partition: NodeNo)
    ensures { pool.new ≡ clean_if (page % config.now.nodes == partition) pool.old page }
{
    if is_of(config, page, partition) {
        clean_copy(pool, page);
        return;
    }
}

/// The copy of a page, where there is one, is clean.
fn clean_copy(pool: &mut BufferPool, page: PageNo)
    ensures { pool.new ≡ clean pool.old page }
{
    if pool.has_slot(page) {
        pool.clean(page);
        return;
    }
}

/// Whether a page is one of a partition.
fn is_of(config: &Config, page: PageNo, partition: NodeNo) -> bool
    ensures { result ≡ (page % config.now.nodes == partition) }
{
    page % config.nodes() == u32::from(partition)
}
