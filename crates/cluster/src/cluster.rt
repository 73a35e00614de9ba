ghost use Rattle.std.specs.Prelude.{◌≡◌, ◌<◌, IfOk};
ghost use Rattle.std.specs.Option.{option_copied};
ghost use Rattle.cluster_rules.specs.Clusters.{node_at, opening};
ghost use Rattle.cluster_parts.specs.Events.{IsAsked};
ghost use Rattle.cluster_parts.specs.Ends.{Ends};
ghost use Rattle.cluster_parts.specs.State.{AreParts, IsCounted, cluster_of};

use crate::parts::ClusterParts;
use cluster_parts::{ClusterFault, asked_of};
use disk_model::MemStorage;
use link_model::Links;
use node_core::Node;
use pcl_base::{Config, Event, NoMemory, NodeNo};
use std::alloc::Global;
use std::marker::Model;
use trace_entries::copy_event;
use trace_model::Trace;

/// A cluster: its nodes, the links between them, a storage in memory, the views that were made, and the
/// trace of all that it gave. Contracts see it as `ClusterView`, and by `cluster_of` as the cluster of the
/// rules; what holds of every cluster in a run holds of it.
///
/// It can't be dropped: `close` ends it.
pub struct Cluster {
    parts: ClusterParts,
}

impl Model for Cluster {
    ghost use Rattle.cluster_parts.specs.State.{AreParts, ClusterView};

    ghost Value = { ClusterView };

    ghost view = { λ c. c.parts };

    ghost invariant = { λ c. AreParts c.parts };
}

impl Cluster {
    /// All nodes at view 1 over fresh storage, with empty links and an empty trace. `NoMemory` where
    /// memory is refused; what was made is lost then.
    pub fn open(alloc: Global, config: &Config) -> Result<Cluster, NoMemory>
        ensures { IfOk result (λ c. cluster_of c ≡ opening config.now) }
    {
        let _limits = config.nodes();
        Ok(Cluster {
            parts: ClusterParts::open(alloc, config)?,
        })
    }

    /// One step on an event of a schedule, which appends one entry to the trace. The call of a stop is
    /// counted from 1. It is the step of the rules, unless a page differs that this reads and a stop ended
    /// it before.
    ///
    /// `NoMemory` leaves nodes, links, storage, views and trace as they were. `Differs` comes only where the
    /// step of the rules reads a page that differs, with its numbers; the cluster may only be closed then.
    pub fn step(&mut self, event: &Event) -> Result<(), ClusterFault>
        requires { IsCounted event.now }
        ensures ends { Ends (cluster_of self.old) event.now result (cluster_of self.new) }
    {
        self.parts.on_event(event)
    }

    /// The trace. It takes no memory.
    pub fn trace(&self) -> &Trace
        ensures value { result.now ≡ self.now.trace }
        ensures parts { AreParts self.now }
    {
        &self.parts.trace
    }

    /// A node, where it is up. It takes no memory.
    pub fn node(&self, n: NodeNo) -> Option<&Node>
        requires { n < self.now.config.nodes }
        ensures { option_copied result ≡ node_at (cluster_of self.now) n }
    {
        self.parts.nodes[n as usize].as_ref()
    }

    /// The storage. It takes no memory.
    pub fn storage(&self) -> &MemStorage
        ensures value { result.now ≡ self.now.storage }
        ensures parts { AreParts self.now }
    {
        &self.parts.storage
    }

    /// The links. It takes no memory.
    pub fn links(&self) -> &Links
        ensures value { result.now ≡ self.now.links }
        ensures parts { AreParts self.now }
    {
        &self.parts.links
    }

    /// Each node that is up is lost, and the memory is let go. It takes no memory.
    pub fn close(self) {
        let Cluster { parts } = self;
        parts.close();
    }
}

impl ClusterParts {
    /// One step, by the kind of the event.
    fn on_event(&mut self, event: &Event) -> Result<(), ClusterFault>
        requires parts { AreParts self.old }
        requires counted { IsCounted event.now }
        ensures ends { Ends (cluster_of self.old) event.now result (cluster_of self.new) }
        ensures parts { AreParts self.new }
    {
        let copy = copy_event(event)?;
        match event {
            Event::Deliver { from, to } => self.on_deliver(copy, *from, *to),
            Event::Crash { node } => self.on_crash(copy, *node),
            Event::View { live, owners } => self.on_view(copy, live.as_slice(), owners.as_slice()),
            Event::Install { node } => self.on_install(copy, *node),
            Event::Reopen => self.on_reopen(copy),
            Event::Arm { node, call, kept } => self.on_arm(copy, *node, *call, *kept),
            _ => self.on_asked(copy, event),
        }
    }

    /// The same, of an event that its node gets as it is.
    fn on_asked(&mut self, copy: Event, event: &Event) -> Result<(), ClusterFault>
        requires parts { AreParts self.old }
        requires copy { copy ≡ event.now }
        requires asked { IsAsked event.now }
        ensures ends { Ends (cluster_of self.old) event.now result (cluster_of self.new) }
        ensures parts { AreParts self.new }
    {
        let (n, asked) = asked_of(event)?;
        self.on_node(copy, n, asked)
    }
}
