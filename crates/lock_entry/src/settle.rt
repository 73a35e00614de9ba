//! What settling looks for in the lists of an entry, and how it changes them.
ghost use Rattle.std.specs.Prelude.{◌≡◌, ◌∷◌, ◌++◌, ◌&&◌, [], false, not, OnOk};
ghost use Rattle.std.specs.List.{list_any};
ghost use Rattle.node_rules.specs.Words.{or_else, head_of, same_tx, is_exclusive};
ghost use Rattle.node_rules.specs.LockRule.{first_upgrade, held_beside, exclusive_beside, hold_alone, revocations, all_revoked};

use crate::find::mode_of;
use pcl_base::{Decision, Holder, Mode, NoMemory, RightMark, TxId, Waiter};
use smallvec::SmallVec;

/// The candidate: the upgrade, if there is one, else the first that waits.
pub(crate) fn candidate(upgrade: Option<Waiter>, waiting: &[Waiter]) -> Option<Waiter>
    ensures { result ≡ or_else upgrade (head_of waiting.now) }
{
    match upgrade {
        Some(upgrade) => Some(upgrade),
        None => waiting.first().copied(),
    }
}

/// The first that waits and is a holder.
pub(crate) fn first_upgrade(holders: &[Holder], waiting: &[Waiter]) -> Option<Waiter>
    ensures { result ≡ first_upgrade holders.now waiting.now }
{
    for waiter in waiting {
        if mode_of(holders, waiter.tx).is_some() {
            return Some(*waiter);
        }
    }
    None
}

/// Whether another transaction holds the page.
pub(crate) fn held_beside(holders: &[Holder], tx: TxId) -> bool
    ensures { result ≡ held_beside holders.now tx }
{
    holders.iter().any(|h| h.tx != tx)
}

/// Whether another transaction holds the page exclusively.
pub(crate) fn exclusive_beside(holders: &[Holder], tx: TxId) -> bool
    ensures { result ≡ exclusive_beside holders.now tx }
{
    holders
        .iter()
        .any(|h| h.tx != tx && h.mode == Mode::Exclusive)
}

/// Whether an exclusive request of another transaction waits.
pub(crate) fn exclusive_waits(waiting: &[Waiter], tx: TxId) -> bool
    ensures { result ≡ list_any (λ w. not (same_tx w.tx tx) && is_exclusive w.mode) waiting.now }
{
    waiting
        .iter()
        .any(|w| w.tx != tx && w.mode == Mode::Exclusive)
}

/// Makes the transaction hold the page exclusively, where no other transaction holds it: in its
/// place where it is a holder, else last.
#[tactic(auto, unfolding(node_rules::specs::LockRule::hold_alone))]
pub(crate) fn hold_alone(holders: &mut SmallVec<Holder, 2>, tx: TxId) -> Result<(), NoMemory>
    requires { held_beside holders.old.items tx ≡ false }
    ensures { OnOk result (holders.new.items ≡ hold_alone holders.old.items tx) }
{
    let holder = Holder {
        tx,
        mode: Mode::Exclusive,
    };
    if holders.is_empty() {
        holders.push(holder)?;
        return Ok(());
    }
    holders[0] = holder;
    Ok(())
}

/// Decides a revocation of each right that isn't revoked, in order.
pub(crate) fn revoke(rights: &[RightMark], decisions: &mut Vec<Decision>) -> Result<(), NoMemory>
    ensures { OnOk result (decisions.new.items ≡ decisions.old.items ++ revocations rights.now) }
{
    for right in rights {
        revoke_one(*right, decisions)?;
    }
    Ok(())
}

/// Decides the revocation of a right that isn't revoked.
#[tactic(auto, unfolding(node_rules::specs::LockRule::revocations))]
fn revoke_one(right: RightMark, decisions: &mut Vec<Decision>) -> Result<(), NoMemory>
    ensures { OnOk result (decisions.new.items ≡ decisions.old.items ++ revocations (right ∷ [])) }
{
    if right.revoked {
        return Ok(());
    }
    decisions.push(Decision::Revoke { node: right.node })?;
    Ok(())
}

/// Marks each right revoked.
pub(crate) fn mark_revoked(rights: &mut [RightMark])
    ensures { rights.new ≡ all_revoked rights.old }
{
    for right in rights.iter_mut() {
        right.revoked = true;
    }
}
