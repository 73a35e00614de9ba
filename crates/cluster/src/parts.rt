ghost use Rattle.std.specs.Prelude.{◌≡◌, ◌<◌, IfOk, length};
ghost use Rattle.cluster_rules.specs.Clusters.{answer, is_up, last_view, lose, opening};
ghost use Rattle.cluster_rules.specs.ClusterStep.{refuse};
ghost use Rattle.cluster_laws.specs.Sound.{AreViews};
ghost use Rattle.cluster_parts.specs.Ends.{ComesTo};
ghost use Rattle.cluster_parts.specs.Events.{absent_at};
ghost use Rattle.cluster_parts.specs.State.{ReadsWell, cluster_of};

use crate::starts::{first_nodes, lose_all, put_at};
use authority_map::View;
use cluster_parts::{ClusterFault, is_up};
use disk_model::MemStorage;
use link_model::Links;
use node_core::Node;
use pcl_base::{Config, Event, NoMemory, NodeNo, Reason, Reply};
use std::alloc::Global;
use std::marker::Model;
use trace_entries::one_reply;
use trace_model::Trace;

/// The parts of a cluster. What holds of every cluster needn't hold of the parts while a step is made.
pub struct ClusterParts {
    pub alloc: Global,
    pub config: Config,
    /// Each node that is up, at the place of its number.
    pub nodes: Vec<Option<Node>>,
    pub links: Links,
    pub storage: MemStorage,
    /// The views that were made, in order.
    pub views: Vec<View>,
    pub trace: Trace,
}

impl Model for ClusterParts {
    ghost use Rattle.cluster_parts.specs.State.{ClusterView};

    ghost Value = { ClusterView };

    ghost view = { λ p. record { config = p.config; nodes = p.nodes.items; links = p.links; storage = p.storage; views = p.views.items; trace = p.trace } };
}

impl ClusterParts {
    /// The parts of an opening cluster. `NoMemory` where memory is refused; nothing is left then.
    pub fn open(alloc: Global, config: &Config) -> Result<ClusterParts, NoMemory>
        ensures cluster { IfOk result (λ p. cluster_of p ≡ opening config.now) }
        ensures title { IfOk result (λ p. p.trace.config ≡ config.now) }
        ensures reads { IfOk result (λ p. ReadsWell p.storage) }
    {
        let links = Links::open(alloc, config)?;
        let storage = MemStorage::open(alloc, config)?;
        let mut views = Vec::with_capacity(alloc, 1)?;
        views.push(View::first(alloc, config)?)?;
        Ok(ClusterParts {
            alloc,
            config: *config,
            nodes: first_nodes(alloc, config)?,
            links,
            storage,
            views,
            trace: Trace::new(alloc, config),
        })
    }

    /// Each node that is up is lost, and the memory is let go.
    pub fn close(self) {
        let ClusterParts {
            alloc: _alloc,
            config: _config,
            nodes,
            links: _links,
            storage: _storage,
            views: _views,
            trace: _trace,
        } = self;
        lose_all(nodes);
    }

    /// Whether a node is there and up.
    pub fn is_up(&self, n: NodeNo) -> bool
        ensures { result ≡ is_up (cluster_of self.now) n }
    {
        is_up(self.nodes.as_slice(), n)
    }

    /// Why a node can't act, if it is so.
    pub fn absent(&self, n: NodeNo) -> Option<Reason>
        ensures { result ≡ absent_at (cluster_of self.now) n }
    {
        if self.config.nodes() <= n as u32 {
            return Some(Reason::NoNode);
        }
        if self.is_up(n) {
            return None;
        }
        Some(Reason::Down)
    }

    /// The view that was made last.
    pub fn last_view(&self) -> &View
        requires { AreViews self.now.config self.now.views }
        ensures { result.now ≡ last_view (cluster_of self.now) }
    {
        &self.views[self.views.len() - 1]
    }

    /// An entry with one reply, and nothing else changes. `NoMemory` leaves all as before.
    pub fn answer(&mut self, event: Event, reply: Reply) -> Result<(), ClusterFault>
        ensures comes { ComesTo (cluster_of self.old) (answer event reply (cluster_of self.old)) result (cluster_of self.new) }
        ensures title { self.new.trace.config ≡ self.old.trace.config }
        ensures failing { self.new.storage.failing ≡ self.old.storage.failing }
    {
        self.trace.reserve(1)?;
        let entry = one_reply(self.alloc, event, reply)?;
        self.trace.push(entry);
        Ok(())
    }

    /// The event is refused. `NoMemory` leaves all as before.
    pub fn refuse(&mut self, event: Event, reason: Reason) -> Result<(), ClusterFault>
        ensures comes { ComesTo (cluster_of self.old) (refuse event reason (cluster_of self.old)) result (cluster_of self.new) }
        ensures title { self.new.trace.config ≡ self.old.trace.config }
        ensures failing { self.new.storage.failing ≡ self.old.storage.failing }
    {
        self.answer(event, Reply::Refused { reason })
    }

    /// A node loses its state, the links into it, and its stop. It takes no memory.
    #[tactic(auto, unfolding(cluster_rules::specs::Clusters::lose))]
    pub fn lose(&mut self, n: NodeNo)
        requires node { n < length self.old.nodes }
        requires log { n < length self.old.storage.logs }
        ensures cluster { cluster_of self.new ≡ lose n (cluster_of self.old) }
        ensures trace { self.new.trace ≡ self.old.trace }
        ensures failing { self.new.storage.failing ≡ self.old.storage.failing }
    {
        put_at(self.nodes.as_mut_slice(), n, None);
        self.links.clear(n);
        self.storage.disarm(n);
    }
}
