ghost use Rattle.std.specs.Prelude.{◌≡◌, ◌==◌, ◌∷◌, [], length, IfOk, OnOk};
ghost use Rattle.std.specs.List.{list_any};
ghost use Rattle.run_rules.specs.Views.{is_live, owner_of, since_of, born_of};
ghost use Rattle.run_rules.specs.Ledger.{is_new};
ghost use Rattle.run_rules.specs.Causes.{is_of_life};

use authority_map::View;
use pcl_base::{Config, NoMemory, NodeNo, PageNo, TxId};
use std::alloc::Global;
use std::marker::Model;

/// A view that was made, which answers for every number: nodes and partitions that it doesn't have
/// are dead, and their other numbers are 0.
///
/// Contracts see the view.
#[derive(Debug, Drop)]
pub(crate) struct Seen {
    view: View,
    nodes: u32,
}

impl Model for Seen {
    ghost use Rattle.run_rules.specs.Views.{View as view_of};
    ghost use Rattle.msg_account.specs.Kept.{HasNodes};

    ghost Value = { view_of };

    ghost view = { λ s. s.view };

    ghost invariant = { λ s. HasNodes s.nodes s.view };
}

impl Seen {
    /// The view of a configuration's nodes.
    pub(crate) fn of(view: View, nodes: u32) -> Seen
        requires { length view.live ≡ nodes }
        ensures { result ≡ view }
    {
        let _epoch = view.epoch();
        Seen { view, nodes }
    }

    /// An equal view.
    pub(crate) fn copy(&self) -> Result<Seen, NoMemory>
        ensures { IfOk result (λ s. s ≡ self.now) }
    {
        let view = self.view.copy()?;
        Ok(Seen::of(view, self.nodes))
    }

    /// The view itself.
    pub(crate) fn view(&self) -> &View
        ensures { result.now ≡ self.now }
    {
        &self.view
    }

    /// The epoch.
    pub(crate) fn epoch(&self) -> u32
        ensures { result ≡ self.now.epoch }
    {
        self.view.epoch()
    }

    /// Whether a node is live.
    pub(crate) fn live(&self, n: NodeNo) -> bool
        ensures { result ≡ is_live self.now.live n }
    {
        if (n as u32) < self.nodes {
            return self.view.live(n);
        }
        false
    }

    /// The owner of a partition.
    pub(crate) fn owner(&self, q: NodeNo) -> NodeNo
        ensures { result ≡ owner_of self.now q }
    {
        if (q as u32) < self.nodes {
            return self.view.owner(q);
        }
        0
    }

    /// The epoch since which the owner of a partition owns it.
    pub(crate) fn since(&self, q: NodeNo) -> u32
        ensures { result ≡ since_of self.now q }
    {
        if (q as u32) < self.nodes {
            return self.view.since(q);
        }
        0
    }

    /// The epoch in which a node was born.
    fn born(&self, n: NodeNo) -> u32
        ensures { result ≡ born_of self.now n }
    {
        if (n as u32) < self.nodes {
            return self.view.born(n);
        }
        0
    }

    /// Whether a transaction is of a live node's present life.
    pub(crate) fn is_of_life(&self, tx: TxId) -> bool
        ensures { result ≡ is_of_life self.now tx }
    {
        self.live(tx.node) && tx.born == self.born(tx.node)
    }

    /// Whether a node owns the partition of a page for the first time in this view.
    pub(crate) fn is_new(&self, config: &Config, n: NodeNo, page: PageNo) -> bool
        ensures { result ≡ is_new self.now config.now n page }
    {
        let partition = (page % config.nodes()) as u8;
        self.owner(partition) == n && self.since(partition) == self.epoch()
    }
}

/// The epochs that a node has installed. Contracts see the last one first.
#[derive(Debug, Drop)]
pub(crate) struct Epochs {
    items: Vec<u32>,
}

impl Model for Epochs {
    ghost use Rattle.std.specs.Prelude.{ℕ, List, reverse};

    ghost Value = { List ℕ };

    ghost view = { λ e. reverse e.items.items };
}

impl Epochs {
    /// The first epoch.
    pub(crate) fn first(alloc: Global) -> Result<Epochs, NoMemory>
        ensures { IfOk result (λ e. e ≡ 1 ∷ []) }
    {
        Ok(Epochs {
            items: vec![in alloc; 1]?,
        })
    }

    /// Adds an epoch.
    pub(crate) fn push(&mut self, epoch: u32) -> Result<(), NoMemory>
        ensures { OnOk result (self.new ≡ epoch ∷ self.old) }
    {
        Ok(self.items.push(epoch)?)
    }

    /// Whether an epoch is there.
    pub(crate) fn has(&self, epoch: u32) -> bool
        ensures { result ≡ list_any (λ e. e == epoch) self.now }
    {
        is_among(self.items.as_slice(), epoch)
    }
}

fn is_among(epochs: &[u32], epoch: u32) -> bool
    ensures { result ≡ list_any (λ e. e == epoch) epochs.now }
{
    epochs.iter().any(|one| *one == epoch)
}
