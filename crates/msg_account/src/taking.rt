ghost use Rattle.std.specs.Prelude.{◌≡◌, ◌==◌, ◌&&◌, None, OnOk};
ghost use Rattle.std.specs.List.{list_any};
ghost use Rattle.run_rules.specs.Words.{pick};
ghost use Rattle.run_rules.specs.Ledger.{head_of, is_want, link_at};
ghost use Rattle.run_rules.specs.Taking.{answered, from_if, is_taken, take, take_from, take_if, taken_of, without_head};

use crate::ledger::Ledger;
use crate::replies::{any_off_link, any_taken};
use crate::wants::Want;
use pcl_base::{Entry, Event, Mode, NoMemory, NodeNo, Note, PageNo, Reply, TxId};
use std::marker::Model;

/// A message that was taken, and its sender.
#[derive(Debug, Drop)]
pub(crate) struct Taken<'a> {
    pub(crate) from: NodeNo,
    pub(crate) note: &'a Note,
}

impl<'a> Model for Taken<'a> {
    ghost use Rattle.run_rules.specs.Taking.{From as from_node};

    ghost Value = { from_node };

    ghost view = { λ t. record { from = t.from; note = t.note.now } };
}

impl<'a> Ledger<'a> {
    /// The message that an entry took.
    pub(crate) fn taken_of(&self, e: &Entry) -> Option<Taken<'a>>
        ensures { result ≡ taken_of e.now.event e.now.replies self.now }
    {
        match e.event {
            Event::Deliver { from, to } => self.taken_from(e.replies.as_slice(), from, to),
            _ => None,
        }
    }

    fn taken_from(&self, replies: &[Reply], from: NodeNo, to: NodeNo) -> Option<Taken<'a>>
        ensures { result ≡ pick (list_any is_taken replies.now) (from_if from (head_of (link_at self.now.links from to))) None }
    {
        if !any_taken(replies) {
            return None;
        }
        match self.links.head(from, to) {
            Some(note) => Some(Taken { from, note }),
            None => None,
        }
    }

    /// The head of the link leaves it where its message was taken or dropped, or the step halted.
    pub(crate) fn drop_head(&mut self, e: &Entry)
        ensures { self.new ≡ without_head e.now e.now.event self.old }
    {
        match e.event {
            Event::Deliver { from, to } => {
                if any_off_link(e.replies.as_slice()) || e.halted.is_some() {
                    self.links.drop_head(from, to);
                }
            }
            _ => {}
        }
    }

    pub(crate) fn take_if(
        &mut self,
        n: Option<NodeNo>,
        taken: &Option<Taken<'a>>,
    ) -> Result<(), NoMemory>
        ensures { OnOk result (self.new ≡ take_if n taken.now self.old) }
    {
        match n {
            Some(node) => self.take_from(node, taken),
            None => Ok(()),
        }
    }

    fn take_from(&mut self, n: NodeNo, taken: &Option<Taken<'a>>) -> Result<(), NoMemory>
        ensures { OnOk result (self.new ≡ take_from n taken.now self.old) }
    {
        match taken {
            Some(message) => self.take(n, message.from, message.note),
            None => Ok(()),
        }
    }

    /// What a message brings to the node that took it.
    #[tactic(auto, unfolding(run_rules::specs::Taking::take))]
    fn take(&mut self, n: NodeNo, from: NodeNo, note: &Note) -> Result<(), NoMemory>
        ensures { OnOk result (self.new ≡ take n from note.now self.old) }
    {
        match note {
            Note::Request { tx, page, mode, .. } => self.push_want(n, Want::new(*tx, *page, *mode)),
            Note::Grant {
                tx,
                page,
                mode,
                right,
                ..
            } => self.take_grant(n, *tx, *page, *mode, *right),
            Note::Release { tx, page, .. } => {
                self.drop_wants(n, *tx, *page);
                Ok(())
            }
            Note::Revoke { .. } => Ok(()),
            Note::Return { page, .. } => {
                self.drop_rights(n, from, *page);
                Ok(())
            }
            Note::Report { waits, rights, .. } => {
                self.push_waits(n, waits.as_slice())?;
                self.push_rights(n, from, rights.as_slice())
            }
        }
    }

    fn take_grant(
        &mut self,
        n: NodeNo,
        tx: TxId,
        page: PageNo,
        mode: Mode,
        right: bool,
    ) -> Result<(), NoMemory>
        ensures { OnOk result (self.new ≡ pick (tx.node == n && list_any (is_want tx page mode) self.old.asked) (answered tx page mode right self.old) self.old) }
    {
        if tx.node == n && self.asked.has(tx, page, mode) {
            return self.answer(tx, page, mode, right);
        }
        Ok(())
    }

    fn answer(&mut self, tx: TxId, page: PageNo, mode: Mode, right: bool) -> Result<(), NoMemory>
        ensures { OnOk result (self.new ≡ answered tx page mode right self.old) }
    {
        self.asked.drop_all(tx, page, mode);
        if right {
            return Ok(());
        }
        self.registered.push(tx, page)
    }
}
