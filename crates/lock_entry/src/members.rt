//! What leaves the lists of an entry, and what comes into them.
ghost use Rattle.std.specs.Prelude.{◌≡◌, ◌==◌, ◌≤◌, ◌+◌, ◌∷◌, [], length, not};
ghost use Rattle.std.specs.List.{filter};
ghost use Rattle.smallvec.specs.SmallVec.{HasRoomFor};
ghost use Rattle.node_rules.specs.Words.{same_tx, flag_at};
ghost use Rattle.node_rules.specs.LockRule.{register, holders_without, waiting_without, rights_without};

use crate::find::mode_of;
use pcl_base::{Holder, Mode, NodeNo, RightMark, TxId, Waiter};
use smallvec::SmallVec;

/// Whether a node has a flag that is set.
fn is_live(live: &[bool], node: NodeNo) -> bool
    ensures { result ≡ flag_at live.now node }
{
    live.get(node as usize).copied().unwrap_or(false)
}

/// Keeps the holders of live nodes.
pub(crate) fn keep_holders(holders: &mut SmallVec<Holder, 2>, live: &[bool])
    ensures { holders.new.items ≡ filter (λ h. flag_at live.now h.tx.node) holders.old.items }
{
    holders.retain(
        |h: &mut Holder| -> bool
            ensures { (result ≡ flag_at live.entry.now h.old.tx.node) × (h.new ≡ h.old) }
        { is_live(live, h.tx.node) },
    );
}

/// Keeps the rights of live nodes.
pub(crate) fn keep_rights(rights: &mut SmallVec<RightMark, 2>, live: &[bool])
    ensures { rights.new.items ≡ filter (λ r. flag_at live.now r.node) rights.old.items }
{
    rights.retain(
        |r: &mut RightMark| -> bool
            ensures { (result ≡ flag_at live.entry.now r.old.node) × (r.new ≡ r.old) }
        { is_live(live, r.node) },
    );
}

/// Keeps the waiting transactions of live nodes.
pub(crate) fn keep_waiting(waiting: &mut SmallVec<Waiter, 2>, live: &[bool])
    ensures { waiting.new.items ≡ filter (λ w. flag_at live.now w.tx.node) waiting.old.items }
{
    waiting.retain(
        |w: &mut Waiter| -> bool
            ensures { (result ≡ flag_at live.entry.now w.old.tx.node) × (w.new ≡ w.old) }
        { is_live(live, w.tx.node) },
    );
}

/// Takes a transaction out of the holders.
pub(crate) fn drop_holder(holders: &mut SmallVec<Holder, 2>, tx: TxId)
    ensures { holders.new.items ≡ holders_without holders.old.items tx }
{
    holders.retain(
        |h: &mut Holder| -> bool
            ensures { (result ≡ not (same_tx h.old.tx tx)) × (h.new ≡ h.old) }
        { h.tx != tx },
    );
}

/// Takes a transaction out of those that wait.
pub(crate) fn drop_waiter(waiting: &mut SmallVec<Waiter, 2>, tx: TxId)
    ensures { waiting.new.items ≡ waiting_without waiting.old.items tx }
{
    waiting.retain(
        |w: &mut Waiter| -> bool
            ensures { (result ≡ not (same_tx w.old.tx tx)) × (w.new ≡ w.old) }
        { w.tx != tx },
    );
}

/// Takes a node out of the rights.
pub(crate) fn drop_right(rights: &mut SmallVec<RightMark, 2>, node: NodeNo)
    ensures { rights.new.items ≡ rights_without rights.old.items node }
{
    rights.retain(
        |r: &mut RightMark| -> bool
            ensures { (result ≡ not (r.old.node == node)) × (r.new ≡ r.old) }
        { r.node != node },
    );
}

/// Makes each transaction that isn't a holder a shared one, in order.
pub(crate) fn register(holders: &mut SmallVec<Holder, 2>, readers: &[TxId])
    requires { HasRoomFor holders.old (length readers.now) }
    ensures { holders.new.items ≡ register holders.old.items readers.now }
{
    for tx in readers {
        register_one(holders, *tx);
    }
}

/// Makes a transaction that isn't a holder a shared one.
#[tactic(auto, unfolding(node_rules::specs::LockRule::register))]
fn register_one(holders: &mut SmallVec<Holder, 2>, tx: TxId)
    requires { HasRoomFor holders.old 1 }
    ensures items { holders.new.items ≡ register holders.old.items (tx ∷ []) }
    ensures longer { length holders.new.items ≤ length holders.old.items + 1 }
    ensures capacity { holders.new.capacity ≡ holders.old.capacity }
{
    if mode_of(holders.as_slice(), tx).is_some() {
        return;
    }
    holders.push_reserved(Holder {
        tx,
        mode: Mode::Shared,
    });
}
