ghost use Rattle.std.specs.Prelude.{◌≡◌, ◌==◌, ◌&&◌, not, IfOk, OnOk};
ghost use Rattle.run_rules.specs.Ledger.{view_at};
ghost use Rattle.run_rules.specs.Account.{cause, cause_if, on_link, one_send};
ghost use Rattle.msg_account.specs.Kept.{if_caused, sending};

use crate::ledger::Ledger;
use crate::once::Once;
use crate::taking::Taken;
use crate::wants::Want;
use pcl_base::{Entry, NoMemory, NodeNo, Note, Sent};

/// The sends of an entry, one after the other.
impl<'a> Ledger<'a> {
    /// One send has to have its cause.
    #[tactic(auto, unfolding(run_rules::specs::Account::one_send))]
    pub(crate) fn send(
        &mut self,
        e: &Entry,
        taken: &Option<Taken<'a>>,
        n: Option<NodeNo>,
        sent: &'a Sent,
        once: &mut Once,
    ) -> Result<bool, NoMemory>
        ensures { IfOk result (λ b. if_caused b self.new once.new ≡ one_send e.now taken.now n sent.now (sending self.old once.old)) }
    {
        match n {
            Some(node) => self.send_by(e, taken, node, sent, once),
            None => Ok(false),
        }
    }

    fn send_by(
        &mut self,
        e: &Entry,
        taken: &Option<Taken<'a>>,
        n: NodeNo,
        sent: &'a Sent,
        once: &mut Once,
    ) -> Result<bool, NoMemory>
        ensures { IfOk result (λ b. if_caused b self.new once.new ≡ cause_if ((sent.now.from == n && not (sent.now.to == n)) && sent.now.epoch == (view_at self.old n).epoch) e.now taken.now n sent.now (sending self.old once.old)) }
    {
        if !((sent.from == n && sent.to != n) && sent.epoch == self.view_at(n).epoch()) {
            return Ok(false);
        }
        if !self.cause(e, taken, n, sent.to, &sent.note, once)? {
            return Ok(false);
        }
        self.put_on_link(sent)?;
        Ok(true)
    }

    /// The cause of a message by its kind.
    fn cause(
        &mut self,
        e: &Entry,
        taken: &Option<Taken<'a>>,
        n: NodeNo,
        to: NodeNo,
        note: &Note,
        once: &mut Once,
    ) -> Result<bool, NoMemory>
        ensures { IfOk result (λ b. if_caused b self.new once.new ≡ cause e.now taken.now n to note.now (sending self.old once.old)) }
    {
        match note {
            Note::Request { tx, page, mode, .. } => {
                self.request(e, n, to, Want::new(*tx, *page, *mode), once)
            }
            Note::Grant {
                tx,
                page,
                mode,
                right,
                ..
            } => self.grant(n, to, Want::new(*tx, *page, *mode), *right, once),
            Note::Release { tx, page, change } => {
                self.release(e, n, to, *tx, *page, *change, once)
            }
            Note::Revoke { page } => self.revoke(n, to, *page, once),
            Note::Return { page, readers } => {
                self.answer_revocation(taken, n, to, *page, readers.as_slice(), once)
            }
            Note::Report {
                partition,
                waits,
                locks,
                ..
            } => self.report(
                e,
                n,
                to,
                *partition,
                waits.as_slice(),
                locks.as_slice(),
                once,
            ),
        }
    }

    /// A message goes last on its link where the receiver is up.
    fn put_on_link(&mut self, sent: &'a Sent) -> Result<(), NoMemory>
        ensures { OnOk result (self.new ≡ on_link sent.now self.old) }
    {
        if self.is_up(sent.to) {
            return self.links.push(sent.from, sent.to, &sent.note);
        }
        Ok(())
    }
}
