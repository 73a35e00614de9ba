ghost use Rattle.std.specs.Prelude.{◌≡◌, ◌+◌, None, IfOk, IfSome};
ghost use Rattle.std.specs.List.{slice_get};
ghost use Rattle.pcl_base.specs.declared.event.Event.TheVariants as kinds;
ghost use Rattle.cluster_rules.specs.Clusters.{node_at, view_of_epoch};
ghost use Rattle.cluster_parts.specs.Ends.{Ends};
ghost use Rattle.cluster_parts.specs.Events.{absent_at};
ghost use Rattle.cluster_parts.specs.State.{AreParts, cluster_of};

use crate::parts::ClusterParts;
use authority_map::View;
use cluster_parts::ClusterFault;
use node_parts::NodeEvent;
use pcl_base::{Event, NoMemory, NodeNo, Reason};

/// The install of the view after a node's own.
impl ClusterParts {
    /// A node installs the view after its own. One entry is appended, or `NoMemory` leaves all as before.
    pub fn on_install(&mut self, event: Event, n: NodeNo) -> Result<(), ClusterFault>
        requires parts { AreParts self.old }
        requires event { event ≡ kinds.Install n }
        ensures ends { Ends (cluster_of self.old) event result (cluster_of self.new) }
        ensures parts { AreParts self.new }
    {
        match self.absent(n) {
            Some(reason) => self.refuse(event, reason),
            None => self.install(event, n),
        }
    }

    /// The same, where the node is up.
    fn install(&mut self, event: Event, n: NodeNo) -> Result<(), ClusterFault>
        requires parts { AreParts self.old }
        requires event { event ≡ kinds.Install n }
        requires up { absent_at (cluster_of self.old) n ≡ None }
        ensures ends { Ends (cluster_of self.old) event result (cluster_of self.new) }
        ensures parts { AreParts self.new }
    {
        match self.next_view(n) {
            Err(_) => Err(ClusterFault::NoMemory),
            Ok(None) => self.refuse(event, Reason::NoView),
            Ok(Some(view)) => self.take_step(event, n, NodeEvent::Install { view }),
        }
    }

    /// The view after that of a node which is up, if it was made. The views stand in the order of their
    /// epochs, from 1 on.
    fn next_view(&self, n: NodeNo) -> Result<Option<View>, NoMemory>
        requires parts { AreParts self.now }
        requires up { absent_at (cluster_of self.now) n ≡ None }
        ensures { IfOk result (λ next. IfSome (node_at (cluster_of self.now) n) (λ s. next ≡ view_of_epoch self.now.views (s.epoch + 1))) }
    {
        let epoch = self.epoch(n);
        copied_at(self.views.as_slice(), epoch as usize)
    }

    /// The epoch of a node that is up.
    fn epoch(&self, n: NodeNo) -> u32
        requires { absent_at (cluster_of self.now) n ≡ None }
        ensures { IfSome (node_at (cluster_of self.now) n) (λ s. result ≡ s.epoch) }
    {
        match &self.nodes[n as usize] {
            Some(node) => node.epoch(),
            None => unreachable!(),
        }
    }
}

/// An equal view to the one at a place, if there is one.
fn copied_at(views: &[View], place: usize) -> Result<Option<View>, NoMemory>
    ensures { IfOk result (λ view. view ≡ slice_get views.now place) }
{
    match views.get(place) {
        Some(view) => Ok(Some(view.copy()?)),
        None => Ok(None),
    }
}
