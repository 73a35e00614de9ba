ghost use Rattle.std.specs.Prelude.{◌≡◌, ◌<◌, None, true};
ghost use Rattle.pcl_base.specs.declared.event.Event.TheVariants as kinds;
ghost use Rattle.cluster_rules.specs.Clusters.{node_at};
ghost use Rattle.cluster_parts.specs.Ends.{Ends};
ghost use Rattle.cluster_parts.specs.Events.{absent_at, viewed};
ghost use Rattle.cluster_parts.specs.State.{AreParts, cluster_of};

use crate::parts::ClusterParts;
use cluster_parts::ClusterFault;
use link_model::EmptyLink;
use node_parts::NodeEvent;
use pcl_base::{Event, NodeNo, Reason};

/// The delivery of the head of a link.
impl ClusterParts {
    /// The head of a link is delivered to its node, which has to be up and in a view. One entry is appended,
    /// or `NoMemory` leaves all as before.
    pub fn on_deliver(&mut self, event: Event, from: NodeNo, to: NodeNo) -> Result<(), ClusterFault>
        requires parts { AreParts self.old }
        requires event { event ≡ kinds.Deliver from to }
        ensures ends { Ends (cluster_of self.old) event result (cluster_of self.new) }
        ensures parts { AreParts self.new }
    {
        if self.config.nodes() <= from as u32 {
            return self.refuse(event, Reason::NoNode);
        }
        match self.absent(to) {
            Some(reason) => self.refuse(event, reason),
            None => self.deliver(event, from, to),
        }
    }

    /// The same, where both nodes are there and the receiver is up.
    fn deliver(&mut self, event: Event, from: NodeNo, to: NodeNo) -> Result<(), ClusterFault>
        requires parts { AreParts self.old }
        requires event { event ≡ kinds.Deliver from to }
        requires sender { from < self.old.config.nodes }
        requires receiver { absent_at (cluster_of self.old) to ≡ None }
        ensures ends { Ends (cluster_of self.old) event result (cluster_of self.new) }
        ensures parts { AreParts self.new }
    {
        if self.in_view(to) {
            return self.deliver_head(event, from, to);
        }
        self.refuse(event, Reason::NotInView)
    }

    /// The same, where the receiver is in a view.
    fn deliver_head(&mut self, event: Event, from: NodeNo, to: NodeNo) -> Result<(), ClusterFault>
        requires parts { AreParts self.old }
        requires event { event ≡ kinds.Deliver from to }
        requires sender { from < self.old.config.nodes }
        requires receiver { absent_at (cluster_of self.old) to ≡ None }
        requires view { viewed (node_at (cluster_of self.old) to) ≡ true }
        ensures ends { Ends (cluster_of self.old) event result (cluster_of self.new) }
        ensures parts { AreParts self.new }
    {
        match self.links.take(from, to) {
            Err(EmptyLink) => self.refuse(event, Reason::EmptyLink),
            Ok(message) => self.take_step(event, to, NodeEvent::Deliver { from, message }),
        }
    }

    /// Whether a node that is up is in a view.
    fn in_view(&self, n: NodeNo) -> bool
        ensures { result ≡ viewed (node_at (cluster_of self.now) n) }
    {
        match self.nodes.as_slice().get(n as usize) {
            Some(Some(node)) => node.in_view(),
            _ => false,
        }
    }
}
