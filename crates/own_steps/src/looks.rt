ghost use Rattle.std.specs.Prelude.{◌≡◌, ◌<◌, true, is_some};
ghost use Rattle.home.specs.Asked.{asked};
ghost use Rattle.node_rules.specs.AccessRule.{is_held};
ghost use Rattle.node_rules.specs.NodeState.{page_owner, table_of};
ghost use Rattle.node_parts.specs.State.{AreParts, IsNode, node_of};

use home::{Access, Home};
use node_parts::Parts;
use pcl_base::{Mode, NodeNo, PageNo};

/// The owner of a page in the node's view.
pub(crate) fn page_owner(parts: &Parts, page: PageNo) -> NodeNo
    requires node { IsNode (node_of parts.now) }
    requires view { is_some parts.now.view ≡ true }
    requires page { page < parts.now.home.config.pages }
    ensures { result ≡ page_owner (node_of parts.now) page }
{
    match &parts.view {
        None => unreachable!(),
        Some(view) => view.owner(parts.home.config().partition(page)),
    }
}

/// Whether the node owns a page.
pub(crate) fn owns(parts: &Parts, page: PageNo) -> bool
    requires parts { AreParts parts.now }
    requires page { page < parts.now.home.config.pages }
    ensures { result ≡ is_some (table_of (node_of parts.now) page) }
{
    let q = parts.home.config().partition(page);
    parts.tables.at(q).is_some()
}

/// Whether the transaction of an access holds the page as the access asks for.
pub(crate) fn is_held(home: &Home, a: &Access) -> bool
    ensures { result ≡ is_held (asked a.now) home.now }
{
    match home.txs().held(a.tx, a.page) {
        None => false,
        Some(held) => held.mode == Mode::Exclusive || a.write.is_none(),
    }
}
