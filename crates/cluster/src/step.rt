ghost use Rattle.std.specs.Prelude.{◌≡◌, ◌<◌, ◌^◌, ◌-◌, [], min, length, Some, Err, IfOk, IfSome};
ghost use Rattle.node_rules.specs.NodeState.{NodeState};
ghost use Rattle.node_rules.specs.NodeStep.{nodestep};
ghost use Rattle.step_laws.specs.Most.{most};
ghost use Rattle.cluster_rules.specs.Clusters.{node_at};
ghost use Rattle.node_parts.specs.Events.{event_of};
ghost use Rattle.node_parts.specs.declared.fault.StepFault.TheVariants.{NoMemory as no_memory};
ghost use Rattle.trace_entries.specs.Notes.{HasMemory};
ghost use Rattle.cluster_parts.specs.Ends.{Ends};
ghost use Rattle.cluster_parts.specs.State.{AreParts, cluster_of, disk_of};
ghost use Rattle.cluster_parts.specs.Steps.{CanStep, HaveRoom, IsPrepared, IsReady, IsStepped, MayGoBack, SparesStay, StaysBeside, before_taking, noted, stopped, taken_or_kept};

use crate::parts::ClusterParts;
use cluster_parts::{ClusterFault, lists_for, send_all, stays};
use node_parts::{NodeEvent, Outputs, StepFault};
use pcl_base::{Call, Entry, Event, Items, NoMemory, NodeNo, Reply, TxId};
use trace_entries::{Notes, halted};

impl ClusterParts {
    /// The step of a node that is up on an event, and the entry of it. The message of a delivery was
    /// taken from its link, and goes back where the node holds or refuses it. `NoMemory` puts it back and
    /// leaves all as before. After `Differs` the node is lost.
    pub fn take_step(
        &mut self,
        event: Event,
        n: NodeNo,
        asked: NodeEvent,
    ) -> Result<(), ClusterFault>
        requires ready { IsReady self.old event n (event_of asked) }
        ensures ends { Ends (before_taking n (event_of asked) (cluster_of self.old)) event result (cluster_of self.new) }
        ensures parts { AreParts self.new }
    {
        match self.prepare(n, &asked) {
            Ok(notes) => self.run_step(event, n, asked, notes),
            Err(_) => {
                self.give_back(n, asked);
                Err(ClusterFault::NoMemory)
            }
        }
    }

    /// Makes room for all that a step on an event may send and note. `NoMemory` leaves all as before.
    fn prepare(&mut self, n: NodeNo, asked: &NodeEvent) -> Result<Notes, NoMemory>
        requires node { n < length self.old.nodes }
        requires links { n < length self.old.links.links }
        ensures cluster { cluster_of self.new ≡ cluster_of self.old }
        ensures title { self.new.trace.config ≡ self.old.trace.config }
        ensures storage { self.new.storage ≡ self.old.storage }
        ensures ready { IfOk result (λ notes. IsPrepared self.new n (event_of asked.now) notes) }
        ensures back { MayGoBack n (event_of asked.now) self.old.links → MayGoBack n (event_of asked.now) self.new.links }
    {
        let most = self.most(n, asked);
        if most == usize::MAX {
            return Err(NoMemory);
        }
        let lists = lists_for(&self.config, asked);
        self.links.reserve(n, most)?;
        self.trace.reserve(1)?;
        Notes::open(self.alloc, most, lists, most)
    }

    /// How much a step of a node on an event gives at most, up to the last number.
    fn most(&self, n: NodeNo, asked: &NodeEvent) -> usize
        requires { n < length self.now.nodes }
        ensures { IfSome (node_at (cluster_of self.now) n) (λ s. result ≡ min (most s (event_of asked.now)) (2 ^ 64 - 1)) }
    {
        match &self.nodes[n as usize] {
            Some(node) => node.most(asked),
            None => 0,
        }
    }

    /// The step, once there is room for all that it may send and note.
    fn run_step(
        &mut self,
        event: Event,
        n: NodeNo,
        asked: NodeEvent,
        notes: Notes,
    ) -> Result<(), ClusterFault>
        requires ready { IsReady self.old event n (event_of asked) }
        requires prepared { IsPrepared self.old n (event_of asked) notes }
        ensures ends { Ends (before_taking n (event_of asked) (cluster_of self.old)) event result (cluster_of self.new) }
        ensures parts { AreParts self.new }
    {
        let mut out = Outputs::open(self.alloc);
        match self.step_node(n, &asked, &mut out) {
            Ok(()) => {
                self.finish(event, n, asked, out, notes);
                Ok(())
            }
            Err(StepFault::NoMemory) => {
                self.give_back(n, asked);
                Err(ClusterFault::NoMemory)
            }
            Err(StepFault::Halted { call, kept }) => {
                self.halt(event, n, call, kept);
                Ok(())
            }
            Err(
                StepFault::Differs {
                    page,
                    expected,
                    found,
                },
            ) => {
                self.lose(n);
                Err(ClusterFault::Differs {
                    page,
                    expected,
                    found,
                })
            }
        }
    }

    /// The step of the node and its storage; links, views and trace stay.
    fn step_node(
        &mut self,
        n: NodeNo,
        asked: &NodeEvent,
        out: &mut Outputs,
    ) -> Result<(), StepFault>
        requires ready { CanStep self.old n (event_of asked.now) }
        requires empty { (out.old.replies ≡ []) × (out.old.sends ≡ []) }
        ensures ran { (s : NodeState) → node_at (cluster_of self.old) n ≡ Some s → IsStepped n (nodestep s (event_of asked.now) (disk_of self.old.storage)) result self.old self.new out.new }
        ensures beside { StaysBeside n self.old self.new }
        ensures memory { result ≡ Err no_memory → cluster_of self.new ≡ cluster_of self.old }
    {
        let at = &mut self.nodes[n as usize];
        match at {
            Some(node) => node.step(asked, &mut self.storage, out),
            None => unreachable!(),
        }
    }

    /// Sends and notes what a step gave.
    fn finish(&mut self, event: Event, n: NodeNo, asked: NodeEvent, out: Outputs, notes: Notes)
        requires room { (HaveRoom self.old.links n out.sends) × (0 < self.old.trace.spare) }
        requires memory { (notes.sent ≡ []) × HasMemory notes out.sends }
        requires back { MayGoBack n (event_of asked) self.old.links }
        ensures cluster { cluster_of self.new ≡ noted event n (event_of asked) out.replies out.sends (cluster_of self.old) }
        ensures title { self.new.trace.config ≡ self.old.trace.config }
        ensures storage { self.new.storage ≡ self.old.storage }
    {
        let (replies, sends) = out.into_parts();
        let mut replies = replies;
        replies.shrink_to_fit();
        self.take_or_keep(n, asked, replies.as_slice());
        let sent = notes.of(n, sends.as_slice());
        send_all(self.nodes.as_slice(), &mut self.links, n, sends);
        self.trace.push(Entry {
            event,
            replies: Items::of(replies),
            sent,
            halted: None,
        });
    }

    /// A message that stays is the head of its link again; another one is taken.
    fn take_or_keep(&mut self, n: NodeNo, asked: NodeEvent, replies: &[Reply])
        requires { MayGoBack n (event_of asked) self.old.links }
        ensures cluster { cluster_of self.new ≡ taken_or_kept n (event_of asked) replies.now (cluster_of self.old) }
        ensures trace { self.new.trace ≡ self.old.trace }
        ensures storage { self.new.storage ≡ self.old.storage }
        ensures spares { SparesStay n self.old.links self.new.links }
    {
        if stays(replies) {
            self.give_back(n, asked);
        }
    }

    /// A failed call has ended the step: the node is lost, and the entry says so alone.
    fn halt(&mut self, event: Event, n: NodeNo, call: Call, kept: Option<TxId>)
        requires node { n < length self.old.nodes }
        requires log { n < length self.old.storage.logs }
        requires room { 0 < self.old.trace.spare }
        ensures cluster { cluster_of self.new ≡ stopped event n call kept (cluster_of self.old) }
        ensures title { self.new.trace.config ≡ self.old.trace.config }
        ensures failing { self.new.storage.failing ≡ self.old.storage.failing }
    {
        self.lose(n);
        self.trace.push(halted(self.alloc, event, call, kept));
    }

    /// The message of a delivery is the head of its link again. It takes no memory.
    fn give_back(&mut self, n: NodeNo, asked: NodeEvent)
        requires { MayGoBack n (event_of asked) self.old.links }
        ensures cluster { cluster_of self.new ≡ before_taking n (event_of asked) (cluster_of self.old) }
        ensures trace { self.new.trace ≡ self.old.trace }
        ensures storage { self.new.storage ≡ self.old.storage }
        ensures spares { SparesStay n self.old.links self.new.links }
    {
        match asked {
            NodeEvent::Deliver { from, message } => self.links.put_back(from, n, message),
            _other => {}
        }
    }
}
