ghost use Rattle.std.specs.Prelude.{◌≡◌, ◌+◌, ◌++◌, ◌∷◌, [], slice_index, slice_set, OnOk};
ghost use Rattle.std.specs.List.{filter, fold, list_any};
ghost use Rattle.run_rules.specs.Words.{pick, same_tx};
ghost use Rattle.run_rules.specs.Taking.{aborts, commit_point, commits, ended_if, halt_point, hear, is_waiting, one_more, own_write, wrote};
ghost use Rattle.run_rules.specs.Account.{heard};

use crate::ledger::{Ledger, actor};
use crate::pairs::Pair;
use crate::replies::{aborts, any_waiting, commits};
use pcl_base::{Entry, Event, Halt, NoMemory, NodeNo, PageNo, Reply, TxId, Version};

/// What an entry tells before its sends.
impl<'a> Ledger<'a> {
    /// What an entry tells before its sends.
    #[tactic(auto, unfolding(run_rules::specs::Account::heard))]
    pub(crate) fn hear_entry(&mut self, e: &Entry) -> Result<(), NoMemory>
        ensures { OnOk result (self.new ≡ heard e.now self.old) }
    {
        let taken = self.taken_of(e);
        let n = actor(&e.event);
        self.drop_head(e);
        self.hear_view(e)?;
        self.hear_write(e)?;
        self.hear_each(&e.event, n, e.replies.as_slice())?;
        self.hear_halt(e.halted)?;
        self.take_if(n, &taken)
    }

    /// A write that waits at its own node.
    fn hear_write(&mut self, e: &Entry) -> Result<(), NoMemory>
        ensures { OnOk result (self.new ≡ own_write e.now e.now.event self.old) }
    {
        match &e.event {
            Event::Write { tx, page, .. } => self.hear_waiting(e.replies.as_slice(), *tx, *page),
            _ => Ok(()),
        }
    }

    fn hear_waiting(&mut self, replies: &[Reply], tx: TxId, page: PageNo) -> Result<(), NoMemory>
        ensures { OnOk result (self.new ≡ pick (list_any (is_waiting tx page) replies.now) (record self.old { writing = self.old.writing ++ record { tx = tx; page = page } ∷ [] }) self.old) }
    {
        if any_waiting(replies, tx, page) {
            return self.writing.push(tx, page);
        }
        Ok(())
    }

    fn hear_each(
        &mut self,
        event: &Event,
        n: Option<NodeNo>,
        replies: &[Reply],
    ) -> Result<(), NoMemory>
        ensures { OnOk result (self.new ≡ fold (hear event.now n) self.old replies.now) }
    {
        for reply in replies {
            self.hear(event, n, reply)?;
        }
        Ok(())
    }

    /// What one reply to an event tells.
    #[tactic(auto, unfolding(run_rules::specs::Taking::hear))]
    fn hear(&mut self, event: &Event, n: Option<NodeNo>, reply: &Reply) -> Result<(), NoMemory>
        ensures { OnOk result (self.new ≡ hear event.now n self.old reply.now) }
    {
        match reply {
            Reply::Done { tx, page, .. } => self.hear_done(*tx, *page),
            Reply::Committed { tx } => self.hear_committed(event, *tx),
            Reply::Aborted { tx } => {
                self.hear_aborted(event, *tx);
                Ok(())
            }
            Reply::Installed { epoch } => self.hear_installed(event, n, *epoch),
            Reply::Reopened { .. } => self.hear_reopened(event),
            _ => Ok(()),
        }
    }

    /// A write was granted.
    #[tactic(auto, unfolding(run_rules::specs::Taking::wrote))]
    fn hear_done(&mut self, tx: TxId, page: PageNo) -> Result<(), NoMemory>
        ensures { OnOk result (self.new ≡ wrote tx page self.old) }
    {
        self.writing.drop_pair(tx, page);
        if self.done.has(tx, page) {
            return Ok(());
        }
        self.done.push(tx, page)
    }

    fn hear_committed(&mut self, event: &Event, tx: TxId) -> Result<(), NoMemory>
        ensures { OnOk result (self.new ≡ ended_if (commits event.now tx) tx (commit_point tx self.old)) }
    {
        self.commit(tx)?;
        if commits(event, tx) {
            self.writing.drop_tx(tx);
        }
        Ok(())
    }

    fn hear_aborted(&mut self, event: &Event, tx: TxId)
        ensures { self.new ≡ ended_if (aborts event.now tx) tx self.old }
    {
        if aborts(event, tx) {
            self.writing.drop_tx(tx);
        }
    }

    /// The commit point of a halt.
    fn hear_halt(&mut self, halted: Option<Halt>) -> Result<(), NoMemory>
        ensures { OnOk result (self.new ≡ halt_point halted self.old) }
    {
        match halted {
            Some(Halt { kept: Some(tx), .. }) => self.commit(tx),
            _ => Ok(()),
        }
    }

    /// A commit point.
    #[tactic(auto, unfolding(run_rules::specs::Taking::commit_point))]
    fn commit(&mut self, tx: TxId) -> Result<(), NoMemory>
        ensures { OnOk result (self.new ≡ commit_point tx self.old) }
    {
        raise_versions(self.versions.as_mut_slice(), self.done.as_slice(), tx)
    }
}

/// The pages that a transaction has written have one version more.
fn raise_versions(versions: &mut [Version], done: &[Pair], tx: TxId) -> Result<(), NoMemory>
    ensures { OnOk result (versions.new ≡ fold one_more versions.old (filter (λ x. same_tx x.tx tx) done.now)) }
{
    for pair in done {
        if pair.is_of_tx(tx) {
            raise_version(versions, pair.page())?;
        }
    }
    Ok(())
}

/// A page has one version more. More commit points than a `u64` counts have no place in memory, so
/// a count that would pass it is told as want of memory.
fn raise_version(versions: &mut [Version], page: PageNo) -> Result<(), NoMemory>
    ensures { OnOk result (versions.new ≡ slice_set versions.old page (slice_index versions.old page + 1)) }
{
    let place = page as usize;
    if versions.len() <= place {
        return Ok(());
    }
    if versions[place] == Version::MAX {
        return Err(NoMemory);
    }
    versions[place] += 1;
    Ok(())
}
