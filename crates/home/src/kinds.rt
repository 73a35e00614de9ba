ghost use Rattle.std.specs.Prelude.{◌≡◌, true, is_some};
ghost use Rattle.std.specs.List.{All};
ghost use Rattle.node_rules.specs.OpenTxs.{held_by};
ghost use Rattle.node_rules.specs.AccessRule.{kinds_on};
ghost use Rattle.tx_table.specs.Counts.{wait_count};

use pcl_base::{Kind, PageNo, TxId};
use tx_table::TxTable;

/// Gives the locks of these transactions on a page another kind. Each of them holds the page.
/// It takes no memory.
pub(crate) fn set_kinds(txs: &mut TxTable, holders: &[TxId], page: PageNo, kind: Kind)
    requires { All (λ t. is_some (held_by txs.old t page) ≡ true) holders.now }
    ensures kinds { txs.new ≡ kinds_on txs.old holders.now page kind }
    ensures waits { wait_count txs.new.txs ≡ wait_count txs.old.txs }
    ensures node { txs.new.node ≡ txs.old.node }
{
    for holder in holders {
        txs.set_kind(*holder, page, kind);
    }
}
