ghost use Rattle.std.specs.Prelude.{◌≡◌, ◌==◌, ◌∷◌, [], false, OnOk};
ghost use Rattle.std.specs.List.{list_all, list_any};
ghost use Rattle.run_rules.specs.Causes.{writer_waits};

use crate::ledger::Ledger;
use pcl_base::{NoMemory, NodeNo, PageNo};
use std::alloc::Global;
use std::marker::Model;

/// What one entry sends but once: a request, an answer, a report of a partition; and the pages for
/// which it asked rights back.
///
/// Contracts see the last one of each list first.
#[derive(Debug, Drop)]
pub(crate) struct Once {
    pub(crate) requested: bool,
    pub(crate) returned: bool,
    reported: Vec<NodeNo>,
    revoked: Vec<PageNo>,
}

impl Model for Once {
    ghost use Rattle.std.specs.Prelude.{reverse};
    ghost use Rattle.msg_account.specs.Kept.{Once as sent_once};

    ghost Value = { sent_once };

    ghost view = { λ o. record { requested = o.requested; returned = o.returned; reported = reverse o.reported.items; revoked = reverse o.revoked.items } };
}

impl Once {
    /// Nothing was sent yet.
    pub(crate) fn new(alloc: Global) -> Once
        ensures { result ≡ record { requested = false; returned = false; reported = []; revoked = [] } }
    {
        Once {
            requested: false,
            returned: false,
            reported: Vec::new(alloc),
            revoked: Vec::new(alloc),
        }
    }

    /// Whether a partition was reported.
    pub(crate) fn has_reported(&self, partition: NodeNo) -> bool
        ensures { result ≡ list_any (λ q. q == partition) self.now.reported }
    {
        has_node(self.reported.as_slice(), partition)
    }

    /// A partition is reported.
    pub(crate) fn push_reported(&mut self, partition: NodeNo) -> Result<(), NoMemory>
        ensures { OnOk result (self.new ≡ record self.old { reported = partition ∷ self.old.reported }) }
    {
        Ok(self.reported.push(partition)?)
    }

    /// A right on a page is asked back.
    pub(crate) fn push_revoked(&mut self, page: PageNo) -> Result<(), NoMemory>
        ensures { OnOk result (self.new ≡ record self.old { revoked = page ∷ self.old.revoked }) }
    {
        Ok(self.revoked.push(page)?)
    }

    /// Whether a writer waits for each page for which a right was asked back.
    pub(crate) fn all_wait(&self, ledger: &Ledger<'_>, n: NodeNo) -> bool
        ensures { result ≡ list_all (writer_waits ledger.now n) self.now.revoked }
    {
        all_wait(ledger, n, self.revoked.as_slice())
    }
}

fn has_node(nodes: &[NodeNo], n: NodeNo) -> bool
    ensures { result ≡ list_any (λ q. q == n) nodes.now }
{
    nodes.iter().any(|node| *node == n)
}

fn all_wait(ledger: &Ledger<'_>, n: NodeNo, pages: &[PageNo]) -> bool
    ensures { result ≡ list_all (writer_waits ledger.now n) pages.now }
{
    pages.iter().all(|page| ledger.writer_waits(n, *page))
}
