//! Settling an entry, turn by turn.
ghost use Rattle.std.specs.Prelude.{◌≡◌, ◌++◌, false, None, IfOk, OnOk};
ghost use Rattle.node_rules.specs.LockRule.{held_beside, settle, turn, turn_shared, turn_exclusive, gives_right, with_right, with_reader, with_writer, all_revoked, revocations, first_upgrade};
ghost use Rattle.lock_entry.specs.Turns.{decided, entry_after, goes_on};

use crate::entry::Entry;
use crate::find::has_right;
use crate::members::drop_waiter;
use crate::settle::{
    candidate, exclusive_beside, exclusive_waits, first_upgrade, held_beside, hold_alone,
    mark_revoked, revoke,
};
use pcl_base::{Decision, Holder, Mode, NoMemory, NodeNo, RightMark, Waiter};

impl Entry {
    /// Takes turns until nothing applies.
    pub(super) fn take_turns(
        &mut self,
        owner: NodeNo,
        decisions: &mut Vec<Decision>,
    ) -> Result<(), NoMemory>
        ensures decisions { OnOk result (decisions.new.items ≡ decisions.old.items ++ (settle owner self.old).decisions) }
        ensures entry { OnOk result (self.new ≡ (settle owner self.old).entry) }
    {
        let most = self.waiting.len();
        let mut upgrade = first_upgrade(self.holders.as_slice(), self.waiting.as_slice());
        for _taken in 0..most {
            if !self.take_turn(upgrade, owner, decisions)? {
                return Ok(());
            }
            upgrade = self.next_upgrade(upgrade);
        }
        Ok(())
    }

    /// The first that waits and is a holder, after a turn whose candidate was `last` if that is
    /// there. Where none was a holder, a grant to one that leaves those that wait makes none of
    /// the others one, so nothing is searched.
    fn next_upgrade(&self, last: Option<Waiter>) -> Option<Waiter>
        requires { last ≡ None → first_upgrade self.now.holders self.now.waiting ≡ None }
        ensures { result ≡ first_upgrade self.now.holders self.now.waiting }
    {
        match last {
            None => None,
            Some(_) => first_upgrade(self.holders.as_slice(), self.waiting.as_slice()),
        }
    }

    /// One turn of settling; true where the next one follows. The candidate is the upgrade, if
    /// there is one, else the first that waits.
    #[tactic(auto, unfolding(node_rules::specs::LockRule::turn, node_rules::specs::LockRule::candidate))]
    fn take_turn(
        &mut self,
        upgrade: Option<Waiter>,
        owner: NodeNo,
        decisions: &mut Vec<Decision>,
    ) -> Result<bool, NoMemory>
        requires { upgrade ≡ first_upgrade self.old.holders self.old.waiting }
        ensures goes { IfOk result (λ more. more ≡ goes_on (turn owner self.old)) }
        ensures entry { OnOk result (self.new ≡ entry_after (turn owner self.old)) }
        ensures decided { OnOk result (decisions.new.items ≡ decisions.old.items ++ decided (turn owner self.old)) }
    {
        match candidate(upgrade, self.waiting.as_slice()) {
            None => Ok(false),
            Some(waiter) => match waiter.mode {
                Mode::Shared => self.share(owner, waiter, decisions),
                Mode::Exclusive => self.give_alone(waiter, decisions),
            },
        }
    }

    /// The turn of a shared candidate.
    fn share(
        &mut self,
        owner: NodeNo,
        waiter: Waiter,
        decisions: &mut Vec<Decision>,
    ) -> Result<bool, NoMemory>
        ensures goes { IfOk result (λ more. more ≡ goes_on (turn_shared owner self.old waiter)) }
        ensures entry { OnOk result (self.new ≡ entry_after (turn_shared owner self.old waiter)) }
        ensures decided { OnOk result (decisions.new.items ≡ decisions.old.items ++ decided (turn_shared owner self.old waiter)) }
    {
        if exclusive_beside(self.holders.as_slice(), waiter.tx) {
            return Ok(false);
        }
        let right = self.gives_right(owner, waiter);
        decisions.push(Decision::Grant {
            tx: waiter.tx,
            mode: Mode::Shared,
            right,
            have: waiter.have,
        })?;
        if right {
            self.share_with_right(waiter)?;
            return Ok(true);
        }
        self.share_with_lock(waiter)?;
        Ok(true)
    }

    /// Whether a shared grant carries a right: the candidate's node isn't the owner and has no
    /// right yet, and no exclusive request waits among the others.
    #[tactic(auto, unfolding(node_rules::specs::LockRule::gives_right))]
    fn gives_right(&self, owner: NodeNo, waiter: Waiter) -> bool
        ensures { result ≡ gives_right owner self.now waiter }
    {
        if waiter.tx.node == owner || has_right(self.rights.as_slice(), waiter.tx.node) {
            return false;
        }
        !exclusive_waits(self.waiting.as_slice(), waiter.tx)
    }

    /// Gives the candidate's node a right.
    fn share_with_right(&mut self, waiter: Waiter) -> Result<(), NoMemory>
        ensures { OnOk result (self.new ≡ with_right self.old waiter) }
    {
        self.rights.push(RightMark {
            node: waiter.tx.node,
            revoked: false,
        })?;
        drop_waiter(&mut self.waiting, waiter.tx);
        Ok(())
    }

    /// Makes the candidate a shared holder.
    fn share_with_lock(&mut self, waiter: Waiter) -> Result<(), NoMemory>
        ensures { OnOk result (self.new ≡ with_reader self.old waiter) }
    {
        self.holders.push(Holder {
            tx: waiter.tx,
            mode: Mode::Shared,
        })?;
        drop_waiter(&mut self.waiting, waiter.tx);
        Ok(())
    }

    /// The turn of an exclusive candidate.
    fn give_alone(
        &mut self,
        waiter: Waiter,
        decisions: &mut Vec<Decision>,
    ) -> Result<bool, NoMemory>
        ensures goes { IfOk result (λ more. more ≡ goes_on (turn_exclusive self.old waiter)) }
        ensures entry { OnOk result (self.new ≡ entry_after (turn_exclusive self.old waiter)) }
        ensures decided { OnOk result (decisions.new.items ≡ decisions.old.items ++ decided (turn_exclusive self.old waiter)) }
    {
        if held_beside(self.holders.as_slice(), waiter.tx) || !self.rights.is_empty() {
            self.revoke_all(decisions)?;
            return Ok(false);
        }
        decisions.push(Decision::Grant {
            tx: waiter.tx,
            mode: Mode::Exclusive,
            right: false,
            have: waiter.have,
        })?;
        self.make_writer(waiter)?;
        Ok(true)
    }

    /// Makes the candidate the one that holds the page exclusively.
    fn make_writer(&mut self, waiter: Waiter) -> Result<(), NoMemory>
        requires { held_beside self.old.holders waiter.tx ≡ false }
        ensures { OnOk result (self.new ≡ with_writer self.old waiter) }
    {
        hold_alone(&mut self.holders, waiter.tx)?;
        drop_waiter(&mut self.waiting, waiter.tx);
        Ok(())
    }

    /// Revokes each right that isn't revoked yet.
    fn revoke_all(&mut self, decisions: &mut Vec<Decision>) -> Result<(), NoMemory>
        ensures entry { OnOk result (self.new ≡ record self.old { rights = all_revoked self.old.rights }) }
        ensures decided { OnOk result (decisions.new.items ≡ decisions.old.items ++ revocations self.old.rights) }
    {
        revoke(self.rights.as_slice(), decisions)?;
        mark_revoked(self.rights.as_mut_slice());
        Ok(())
    }
}
