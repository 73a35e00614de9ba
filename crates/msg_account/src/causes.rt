ghost use Rattle.std.specs.Prelude.{◌≡◌, ◌==◌, ◌&&◌, IfOk};
ghost use Rattle.std.specs.List.{list_any};
ghost use Rattle.run_rules.specs.Views.{owner_of, since_of};
ghost use Rattle.run_rules.specs.Ledger.{view_at};
ghost use Rattle.run_rules.specs.Causes.{answer, grant, is_change, is_install, is_installed, is_revocation, is_revoke, release, report, request, revoke};
ghost use Rattle.msg_account.specs.Kept.{if_caused, sending};

use crate::ledger::Ledger;
use crate::once::Once;
use crate::replies::{any_end, any_installed, any_waiting, commits, is_access};
use crate::taking::Taken;
use crate::wants::Want;
use pcl_base::{
    Entry, Event, NoMemory, NodeNo, Note, PageNo, ReportLock, ReportWait, TxId, Version,
};

/// The cause of each kind of message.
impl<'a> Ledger<'a> {
    /// A request: of the entry's access, which waits, to the owner.
    pub(crate) fn request(
        &mut self,
        e: &Entry,
        n: NodeNo,
        to: NodeNo,
        want: Want,
        once: &mut Once,
    ) -> Result<bool, NoMemory>
        ensures { IfOk result (λ b. if_caused b self.new once.new ≡ request e.now n to want.tx want.page want.mode (sending self.old once.old)) }
    {
        let (tx, page) = (want.tx(), want.page());
        if !(!once.requested
            && (is_access(&e.event, tx, page, want.mode())
                && (any_waiting(e.replies.as_slice(), tx, page)
                    && self.owner_for(n, page) == to)))
        {
            return Ok(false);
        }
        self.asked.push(want)?;
        once.requested = true;
        Ok(true)
    }

    /// A grant: of a request or a waiting item that the holder took, to the transaction's node.
    pub(crate) fn grant(
        &mut self,
        n: NodeNo,
        to: NodeNo,
        want: Want,
        right: bool,
        once: &mut Once,
    ) -> Result<bool, NoMemory>
        ensures { IfOk result (λ b. if_caused b self.new once.new ≡ grant n to want.tx want.page want.mode right (sending self.old once.old)) }
    {
        if !(self.holds(n, want.page()) && to == want.tx().node) {
            return Ok(false);
        }
        if !self.take_want(n, want) {
            return Ok(false);
        }
        if right {
            self.push_right(n, to, want.page())?;
        }
        Ok(true)
    }

    /// A release: of a transaction that ends here with a request that isn't answered or a registered
    /// lock; it brings the version that the commit made of a page that was written.
    pub(crate) fn release(
        &mut self,
        e: &Entry,
        n: NodeNo,
        to: NodeNo,
        tx: TxId,
        page: PageNo,
        change: Option<Version>,
        once: &mut Once,
    ) -> Result<bool, NoMemory>
        ensures { IfOk result (λ b. if_caused b self.new once.new ≡ release e.now n to tx page change (sending self.old once.old)) }
    {
        if !(any_end(&e.event, e.replies.as_slice(), tx) && self.owner_for(n, page) == to) {
            return Ok(false);
        }
        if !((self.asked.has_page(tx, page) || self.registered.has(tx, page))
            && !self.released.has(tx, page))
        {
            return Ok(false);
        }
        let changed = commits(&e.event, tx) && self.done.has(tx, page);
        if !is_change(changed, self.version(page), change) {
            return Ok(false);
        }
        self.released.push(tx, page)?;
        Ok(true)
    }

    /// A revocation: of a right that is out, and once a right.
    pub(crate) fn revoke(
        &mut self,
        n: NodeNo,
        to: NodeNo,
        page: PageNo,
        once: &mut Once,
    ) -> Result<bool, NoMemory>
        ensures { IfOk result (λ b. if_caused b self.new once.new ≡ revoke n to page (sending self.old once.old)) }
    {
        if !self.holds(n, page) {
            return Ok(false);
        }
        if !self.revoke_right(n, to, page) {
            return Ok(false);
        }
        once.push_revoked(page)?;
        Ok(true)
    }

    /// An answer: to the revocation that the entry took; the readers that it names are registered.
    pub(crate) fn answer_revocation(
        &mut self,
        taken: &Option<Taken<'a>>,
        n: NodeNo,
        to: NodeNo,
        page: PageNo,
        readers: &[TxId],
        once: &mut Once,
    ) -> Result<bool, NoMemory>
        ensures { IfOk result (λ b. if_caused b self.new once.new ≡ answer taken.now n to page readers.now (sending self.old once.old)) }
    {
        if !(!once.returned && is_revocation(taken, to, page)) {
            return Ok(false);
        }
        self.registered.push_readers_of(page, readers, n)?;
        once.returned = true;
        Ok(true)
    }

    /// A report: of a partition that got its owner in the view that the entry installed.
    pub(crate) fn report(
        &mut self,
        e: &Entry,
        n: NodeNo,
        to: NodeNo,
        partition: NodeNo,
        waits: &[ReportWait],
        locks: &[ReportLock],
        once: &mut Once,
    ) -> Result<bool, NoMemory>
        ensures { IfOk result (λ b. if_caused b self.new once.new ≡ report e.now n to partition waits.now locks.now (sending self.old once.old)) }
    {
        if !self.may_report(e, n, to, partition) {
            return Ok(false);
        }
        if once.has_reported(partition) {
            return Ok(false);
        }
        self.asked.push_waits_of(waits, n)?;
        self.registered.push_locks_of(locks, n)?;
        once.push_reported(partition)?;
        Ok(true)
    }

    /// Whether a node installed in this entry the view in which a partition got this owner.
    fn may_report(&self, e: &Entry, n: NodeNo, to: NodeNo, partition: NodeNo) -> bool
        ensures { result ≡ ((is_install e.now.event && list_any (is_installed (view_at self.now n).epoch) e.now.replies) && (since_of (view_at self.now n) partition == (view_at self.now n).epoch && owner_of (view_at self.now n) partition == to)) }
    {
        let view = self.view_at(n);
        (is_install(&e.event) && any_installed(e.replies.as_slice(), view.epoch()))
            && (view.since(partition) == view.epoch() && view.owner(partition) == to)
    }
}

fn is_install(event: &Event) -> bool
    ensures { result ≡ is_install event.now }
{
    match event {
        Event::Install { .. } => true,
        _ => false,
    }
}

/// Whether a message that was taken is the revocation of a page by a node.
fn is_revocation(taken: &Option<Taken<'_>>, to: NodeNo, page: PageNo) -> bool
    ensures { result ≡ is_revocation to page taken.now }
{
    match taken {
        Some(message) => message.from == to && is_revoke(message.note, page),
        None => false,
    }
}

fn is_revoke(note: &Note, page: PageNo) -> bool
    ensures { result ≡ is_revoke note.now page }
{
    match note {
        Note::Revoke { page: one } => *one == page,
        _ => false,
    }
}

/// Whether a change is there exactly where it has to be, at that version.
fn is_change(changed: bool, version: Version, change: Option<Version>) -> bool
    ensures { result ≡ is_change changed version change }
{
    match change {
        Some(one) => changed && one == version,
        None => !changed,
    }
}
