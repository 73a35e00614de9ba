ghost use Rattle.std.specs.Prelude.{◌≡◌, ◌==◌, [], slice_index, slice_index_or};
ghost use Rattle.std.specs.List.{list_any};
ghost use Rattle.run_rules.specs.Ledger.{wanted_at};
ghost use Rattle.run_rules.specs.Causes.{holds, other_waits, owner_for, still_wait, writer_waits};
ghost use Rattle.msg_account.specs.Kept.{if_caused, sending};

use crate::ledger::Ledger;
use crate::once::Once;
use pcl_base::{NodeNo, PageNo, Version};

/// What the ledger says of a node and a page.
impl<'a> Ledger<'a> {
    /// The owner of a page in the view of a node.
    pub(crate) fn owner_for(&self, n: NodeNo, page: PageNo) -> NodeNo
        ensures { result ≡ owner_for self.now n page }
    {
        let partition = (page % self.views.config().nodes()) as u8;
        self.view_at(n).owner(partition)
    }

    /// Whether a node has installed the view of an epoch.
    fn has_installed(&self, n: NodeNo, epoch: u32) -> bool
        ensures { result ≡ list_any (λ e. e == epoch) (slice_index_or self.now.installed n []) }
    {
        match self.installed.get(n as usize) {
            Some(epochs) => epochs.has(epoch),
            None => false,
        }
    }

    /// Whether a node holds the partition of a page: it owns it in its view, and has installed the
    /// view since which it does.
    pub(crate) fn holds(&self, n: NodeNo, page: PageNo) -> bool
        ensures { result ≡ holds self.now n page }
    {
        let partition = (page % self.views.config().nodes()) as u8;
        let since = self.view_at(n).since(partition);
        self.owner_for(n, page) == n && self.has_installed(n, since)
    }

    /// Whether an exclusive access of a page waits at a node.
    pub(crate) fn writer_waits(&self, n: NodeNo, page: PageNo) -> bool
        ensures { result ≡ writer_waits self.now n page }
    {
        self.writing.has_living(self.view_at(n), n, page) || self.other_waits(n, page)
    }

    fn other_waits(&self, n: NodeNo, page: PageNo) -> bool
        ensures { result ≡ list_any (other_waits self.now n page) (wanted_at self.now n) }
    {
        match self.wanted.get(n as usize) {
            Some(wants) => wants.has_writer(self.view_at(n), n, page),
            None => false,
        }
    }

    /// Whether the writers for whom rights were asked back wait when the entry ends.
    pub(crate) fn still_wait(&self, n: Option<NodeNo>, once: &Once) -> bool
        ensures { if_caused result self.now once.now ≡ still_wait n (sending self.now once.now) }
    {
        match n {
            Some(node) => once.all_wait(self, node),
            None => true,
        }
    }

    /// The version of a page.
    pub(crate) fn version(&self, page: PageNo) -> Version
        ensures { result ≡ slice_index self.now.versions page }
    {
        match self.versions.get(page as usize) {
            Some(version) => *version,
            None => 0,
        }
    }
}
