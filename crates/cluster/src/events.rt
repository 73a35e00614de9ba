ghost use Rattle.std.specs.Prelude.{◌≡◌, ◌<◌, ◌≤◌, length};
ghost use Rattle.pcl_base.specs.declared.event.Event.TheVariants as kinds;
ghost use Rattle.pcl_base.specs.declared.reply.Reply.TheVariants as reply;
ghost use Rattle.cluster_rules.specs.Clusters.{answer, lose};
ghost use Rattle.cluster_rules.specs.ClusterStep.{arm};
ghost use Rattle.node_parts.specs.Events.{event_of};
ghost use Rattle.cluster_parts.specs.Ends.{ComesTo, Ends};
ghost use Rattle.cluster_parts.specs.Events.{IsPlain};
ghost use Rattle.cluster_parts.specs.State.{AreParts, cluster_of};

use crate::parts::ClusterParts;
use cluster_parts::ClusterFault;
use node_parts::NodeEvent;
use pcl_base::{Event, NodeNo, Reply};
use trace_entries::one_reply;

/// The events of one node. Each appends one entry, or leaves all as before with `NoMemory`.
impl ClusterParts {
    /// An event that its node gets as it is.
    pub fn on_node(&mut self, event: Event, n: NodeNo, asked: NodeEvent) -> Result<(), ClusterFault>
        requires parts { AreParts self.old }
        requires plain { IsPlain event n (event_of asked) }
        ensures ends { Ends (cluster_of self.old) event result (cluster_of self.new) }
        ensures parts { AreParts self.new }
    {
        match self.absent(n) {
            Some(reason) => self.refuse(event, reason),
            None => self.take_step(event, n, asked),
        }
    }

    /// A node that is up loses its state.
    pub fn on_crash(&mut self, event: Event, n: NodeNo) -> Result<(), ClusterFault>
        requires parts { AreParts self.old }
        requires event { event ≡ kinds.Crash n }
        ensures ends { Ends (cluster_of self.old) event result (cluster_of self.new) }
        ensures parts { AreParts self.new }
    {
        match self.absent(n) {
            Some(reason) => self.refuse(event, reason),
            None => self.crash(event, n),
        }
    }

    /// The same of one that is up.
    fn crash(&mut self, event: Event, n: NodeNo) -> Result<(), ClusterFault>
        requires node { n < length self.old.nodes }
        requires log { n < length self.old.storage.logs }
        ensures comes { ComesTo (cluster_of self.old) (answer event reply.Crashed (lose n (cluster_of self.old))) result (cluster_of self.new) }
        ensures title { self.new.trace.config ≡ self.old.trace.config }
        ensures failing { self.new.storage.failing ≡ self.old.storage.failing }
    {
        self.trace.reserve(1)?;
        let entry = one_reply(self.alloc, event, Reply::Crashed)?;
        self.lose(n);
        self.trace.push(entry);
        Ok(())
    }

    /// A stop is armed for a node that is up. Its calls are counted from 1.
    pub fn on_arm(
        &mut self,
        event: Event,
        n: NodeNo,
        call: u32,
        kept: u32,
    ) -> Result<(), ClusterFault>
        requires parts { AreParts self.old }
        requires event { event ≡ kinds.Arm n call kept }
        requires call { 1 ≤ call }
        ensures ends { Ends (cluster_of self.old) event result (cluster_of self.new) }
        ensures parts { AreParts self.new }
    {
        match self.absent(n) {
            Some(reason) => self.refuse(event, reason),
            None => self.arm(event, n, call, kept),
        }
    }

    /// The same of one that is up.
    fn arm(&mut self, event: Event, n: NodeNo, call: u32, kept: u32) -> Result<(), ClusterFault>
        requires log { n < length self.old.storage.logs }
        requires call { 1 ≤ call }
        ensures comes { ComesTo (cluster_of self.old) (arm event n call kept (cluster_of self.old)) result (cluster_of self.new) }
        ensures title { self.new.trace.config ≡ self.old.trace.config }
        ensures failing { self.new.storage.failing ≡ self.old.storage.failing }
    {
        self.trace.reserve(1)?;
        let entry = one_reply(self.alloc, event, Reply::Armed)?;
        self.storage.arm(n, call, kept);
        self.trace.push(entry);
        Ok(())
    }
}
