ghost use Rattle.std.specs.Prelude.{◌≡◌, ℕ, ◌<◌, ◌-◌, ◌^◌, min, false, is_some, IfOk, IfSome};
ghost use Rattle.std.specs.Option.{option_copied, option_map};
ghost use Rattle.lock_table.specs.Tables.{found, is_idle, table_of};
ghost use Rattle.node_rules.specs.NodeState.{first_node, start_node, number_of, table_at};
ghost use Rattle.node_rules.specs.Refusals.{refusal};
ghost use Rattle.step_laws.specs.Most.{most};
ghost use Rattle.node_parts.specs.Events.{FitsNodes, event_of};
ghost use Rattle.node_parts.specs.State.{IsNode, owns};
ghost use Rattle.node_parts.specs.Tables.{IsTableAt};
ghost use Rattle.node_looks.specs.Looks.{holding, open_names, waiting};

use lock_table::Table;
use node_looks::{HoldItem, WaitItem, holding, most, refusal, txs, waiting};
use node_parts::{NodeEvent, Parts};
use pcl_base::{Config, NoMemory, NodeNo, Reason, TxId};
use std::alloc::Global;
use std::marker::Model;

/// A node: the home of its transactions, its epoch and view, and a lock table for each partition that it
/// owns. Contracts see it as the node of the rules, and what holds of every node holds of it.
///
/// It can't be dropped: `lose` ends its rights and gives its frames back.
pub struct Node {
    pub(crate) parts: Parts,
}

impl Model for Node {
    ghost use Rattle.node_rules.specs.NodeState.{NodeState};
    ghost use Rattle.node_parts.specs.State.{AreParts, node_of};

    ghost Value = { NodeState };

    ghost view = { λ n. node_of n.parts };

    ghost invariant = { λ n. AreParts n.parts };
}

impl Node {
    /// Node `me`, below N, at view 1 of fresh storage: it serves the partition of its own number, with
    /// all versions 0. It takes the memory of the whole buffer; `NoMemory` where that is refused.
    pub fn first(alloc: Global, config: &Config, me: NodeNo) -> Result<Node, NoMemory>
        requires { me < config.now.nodes }
        ensures { IfOk result (λ n. n ≡ first_node config.now me) }
    {
        Ok(Node {
            parts: Parts::first(alloc, config, me)?,
        })
    }

    /// Node `me`, below N, in no view and at this epoch. The first view that it installs has a greater
    /// epoch. It takes the memory of the whole buffer; `NoMemory` where that is refused.
    pub fn start(alloc: Global, config: &Config, me: NodeNo, epoch: u32) -> Result<Node, NoMemory>
        requires { me < config.now.nodes }
        ensures { IfOk result (λ n. n ≡ start_node config.now me epoch) }
    {
        Ok(Node {
            parts: Parts::start(alloc, config, me, epoch)?,
        })
    }

    /// Ends the rights, gives the frames back and lets the memory go. It takes no memory.
    pub fn lose(self) {
        let Node { parts } = self;
        parts.close();
    }

    /// The epoch. It takes no memory.
    pub fn epoch(&self) -> u32
        ensures value { result ≡ self.now.epoch }
        ensures node { IsNode self.now }
    {
        self.parts.epoch
    }

    /// Whether the node is in a view. It takes no memory.
    pub fn in_view(&self) -> bool
        ensures value { result ≡ is_some self.now.view }
        ensures node { IsNode self.now }
    {
        self.parts.view.is_some()
    }

    /// The first reason against an event that the node itself sees, or none. A view that comes with the
    /// event has to be one of N nodes. It takes no memory.
    pub fn refusal(&self, event: &NodeEvent) -> Option<Reason>
        requires { FitsNodes self.now.home.config event.now }
        ensures { result ≡ refusal self.now (event_of event.now) }
    {
        refusal(&self.parts, event)
    }

    /// How many replies, how many sends and how many items in the lists of its sends a step on this
    /// event gives at most, up to the last number of its type. It takes no memory.
    pub fn most(&self, event: &NodeEvent) -> usize
        ensures { result ≡ min (most self.now (event_of event.now)) (2 ^ 64 - 1) }
    {
        most(&self.parts, event)
    }

    /// The node's own table of a partition, which is below N: None exactly where the node is in no
    /// view or doesn't own the partition in its view. Every entry of it has a list that isn't empty.
    /// It takes no memory.
    pub fn table(&self, q: NodeNo) -> Option<&Table>
        requires { q < self.now.home.config.nodes }
        ensures value { option_map table_of (option_copied result) ≡ table_at self.now q }
        ensures owned { is_some result ≡ owns self.now.view (number_of self.now) q }
        ensures place { IfSome result (λ t. IsTableAt self.now.home.config q t.now) }
        ensures used { IfSome result (λ t. (p : ℕ) → IfSome (found t.now p) (λ e. is_idle e ≡ false)) }
    {
        self.parts.tables.at(q)
    }

    /// The names of the open transactions, by serial. `NoMemory` where memory is refused.
    pub fn txs(&self) -> Result<Vec<TxId>, NoMemory>
        ensures { IfOk result (λ ts. ts.items ≡ open_names self.now) }
    {
        txs(&self.parts)
    }

    /// Who waits for a page of a partition that the node serves: pages rising, each in the order of its
    /// list. `NoMemory` where memory is refused.
    pub fn waiting(&self) -> Result<Vec<WaitItem>, NoMemory>
        ensures { IfOk result (λ ws. ws.items ≡ waiting self.now) }
    {
        waiting(&self.parts)
    }

    /// What the open transactions hold, of every kind, by serial and then first access. `NoMemory`
    /// where memory is refused.
    pub fn holding(&self) -> Result<Vec<HoldItem>, NoMemory>
        ensures { IfOk result (λ hs. hs.items ≡ holding self.now) }
    {
        holding(&self.parts)
    }
}
