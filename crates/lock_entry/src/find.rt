//! Looks into the lists of an entry.
ghost use Rattle.std.specs.Prelude.{◌≡◌};
ghost use Rattle.node_rules.specs.Words.{covers};
ghost use Rattle.node_rules.specs.LockRule.{mode_of, waits_in, has_right};

use pcl_base::{Holder, Mode, NodeNo, RightMark, TxId, Waiter};

/// The mode in which a transaction holds the page.
pub(crate) fn mode_of(holders: &[Holder], tx: TxId) -> Option<Mode>
    ensures { result ≡ mode_of holders.now tx }
{
    for holder in holders {
        if holder.tx == tx {
            return Some(holder.mode);
        }
    }
    None
}

/// Whether a mode that is held, if there is one, allows what a mode asks for.
pub(crate) fn covers(held: Option<Mode>, asked: Mode) -> bool
    ensures { result ≡ covers held asked }
{
    match held {
        None => false,
        Some(Mode::Shared) => asked == Mode::Shared,
        Some(Mode::Exclusive) => true,
    }
}

/// Whether a transaction waits.
pub(crate) fn waits(waiting: &[Waiter], tx: TxId) -> bool
    ensures { result ≡ waits_in waiting.now tx }
{
    waiting.iter().any(|w| w.tx == tx)
}

/// Whether a node has a right.
pub(crate) fn has_right(rights: &[RightMark], node: NodeNo) -> bool
    ensures { result ≡ has_right rights.now node }
{
    rights.iter().any(|r| r.node == node)
}
