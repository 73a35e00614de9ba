ghost use Rattle.std.specs.Prelude.{◌≡◌, ◌<◌, ◌&&◌, not, length, IfOk};
ghost use Rattle.std.specs.List.{AllByRecursion, list_any};
ghost use Rattle.pcl_base.specs.declared.event.Event.TheVariants as kinds;
ghost use Rattle.run_rules.specs.Views.{is_live};
ghost use Rattle.cluster_rules.specs.Clusters.{answer, is_up, last_view};
ghost use Rattle.cluster_rules.specs.ClusterStep.{add_view, all_nodes, drops_up, make_reopened, make_view, returning, start_all};
ghost use Rattle.cluster_parts.specs.Ends.{ComesTo, Ends};
ghost use Rattle.cluster_parts.specs.State.{AreParts, cluster_of};

use crate::parts::ClusterParts;
use crate::starts::{put_started, start_nodes};
use authority_map::{View, ViewFault};
use cluster_parts::ClusterFault;
use pcl_base::{Event, NoMemory, NodeNo, Reason, Reply};
use trace_entries::one_reply;

/// The events of views. Each appends one entry, or leaves all as before with `NoMemory`.
impl ClusterParts {
    /// The next view is made from live flags and owners, where it keeps the rules and drops no node that
    /// is up. The returning nodes start at the epoch before it.
    pub fn on_view(
        &mut self,
        event: Event,
        live: &[bool],
        owners: &[NodeNo],
    ) -> Result<(), ClusterFault>
        requires parts { AreParts self.old }
        requires event { event ≡ kinds.View live.now owners.now }
        ensures ends { Ends (cluster_of self.old) event result (cluster_of self.new) }
        ensures parts { AreParts self.new }
    {
        let live = Vec::from_slice(self.alloc, live)?;
        let owners = Vec::from_slice(self.alloc, owners)?;
        match self
            .last_view()
            .next(self.alloc, &self.config, &live, &owners)
        {
            Ok(view) => self.make_view(event, view),
            Err(ViewFault::BadView { rule }) => self.refuse(event, Reason::BadView { rule }),
            Err(ViewFault::NoMemory) => Err(ClusterFault::NoMemory),
        }
    }

    /// A view is made where it drops no node that is up.
    fn make_view(&mut self, event: Event, view: View) -> Result<(), ClusterFault>
        requires parts { AreParts self.old }
        requires nodes { length view.live ≡ self.old.config.nodes }
        ensures comes { ComesTo (cluster_of self.old) (make_view (drops_up (cluster_of self.old) view) event view (cluster_of self.old)) result (cluster_of self.new) }
        ensures title { self.new.trace.config ≡ self.old.trace.config }
        ensures failing { self.new.storage.failing ≡ self.old.storage.failing }
    {
        if self.drops_up(&view) {
            return self.refuse(event, Reason::StillUp);
        }
        let starts = self.returning(&view)?;
        let epoch = view.epoch();
        let reply = Reply::Viewed { epoch };
        self.start_view(event, view, reply, starts.as_slice())
    }

    /// Whether a view drops a node that is up.
    fn drops_up(&self, view: &View) -> bool
        requires { length view.now.live ≡ self.now.config.nodes }
        ensures { result ≡ drops_up (cluster_of self.now) view.now }
    {
        let nodes = self.config.nodes() as u8;
        for n in 0..nodes {
            if self.is_dropped(view, n) {
                return true;
            }
        }
        false
    }

    /// Whether a node is up that a view drops.
    fn is_dropped(&self, view: &View, n: NodeNo) -> bool
        requires { n < length view.now.live }
        ensures { result ≡ (is_up (cluster_of self.now) n && not (is_live view.now.live n)) }
    {
        self.is_up(n) && !view.live(n)
    }

    /// The nodes that a view brings back.
    fn returning(&self, view: &View) -> Result<Vec<NodeNo>, NoMemory>
        requires parts { AreParts self.now }
        requires nodes { length view.now.live ≡ self.now.config.nodes }
        ensures numbers { IfOk result (λ ns. ns.items ≡ returning (last_view (cluster_of self.now)) view.now (all_nodes (cluster_of self.now))) }
        ensures below { IfOk result (λ ns. AllByRecursion (λ n. n < self.now.config.nodes) ns.items) }
    {
        let before = self.last_view();
        let nodes = self.config.nodes() as u8;
        let mut numbers = Vec::with_capacity(self.alloc, nodes as usize)?;
        for n in 0..nodes {
            if comes_back(before, view, n) {
                numbers.push_reserved(n);
            }
        }
        Ok(numbers)
    }

    /// All nodes start afresh where none is up, at the epoch before the next view, which is made from
    /// none before.
    pub fn on_reopen(&mut self, event: Event) -> Result<(), ClusterFault>
        requires parts { AreParts self.old }
        requires event { event ≡ kinds.Reopen }
        ensures ends { Ends (cluster_of self.old) event result (cluster_of self.new) }
        ensures parts { AreParts self.new }
    {
        match self.last_view().reopen(self.alloc, &self.config) {
            Ok(view) => self.make_reopened(event, view),
            Err(ViewFault::BadView { rule }) => self.refuse(event, Reason::BadView { rule }),
            Err(ViewFault::NoMemory) => Err(ClusterFault::NoMemory),
        }
    }

    /// The view of a reopening is made where no node is up.
    fn make_reopened(&mut self, event: Event, view: View) -> Result<(), ClusterFault>
        requires parts { AreParts self.old }
        ensures comes { ComesTo (cluster_of self.old) (make_reopened (list_any (is_up (cluster_of self.old)) (all_nodes (cluster_of self.old))) event view (cluster_of self.old)) result (cluster_of self.new) }
        ensures title { self.new.trace.config ≡ self.old.trace.config }
        ensures failing { self.new.storage.failing ≡ self.old.storage.failing }
    {
        if self.any_up() {
            return self.refuse(event, Reason::StillUp);
        }
        let starts = self.numbers()?;
        let reply = Reply::Reopened {
            epoch: view.epoch(),
        };
        self.start_view(event, view, reply, starts.as_slice())
    }

    /// Whether a node is up.
    fn any_up(&self) -> bool
        ensures { result ≡ list_any (is_up (cluster_of self.now)) (all_nodes (cluster_of self.now)) }
    {
        let nodes = self.config.nodes() as u8;
        for n in 0..nodes {
            if self.is_up(n) {
                return true;
            }
        }
        false
    }

    /// The numbers of all nodes.
    fn numbers(&self) -> Result<Vec<NodeNo>, NoMemory>
        ensures numbers { IfOk result (λ ns. ns.items ≡ all_nodes (cluster_of self.now)) }
        ensures below { IfOk result (λ ns. AllByRecursion (λ n. n < self.now.config.nodes) ns.items) }
    {
        let count = self.config.nodes() as u8;
        let mut numbers = Vec::with_capacity(self.alloc, count as usize)?;
        for n in 0..count {
            numbers.push_reserved(n);
        }
        Ok(numbers)
    }

    /// A view is made, and some nodes start at the epoch before it. All memory is taken before anything
    /// changes.
    fn start_view(
        &mut self,
        event: Event,
        view: View,
        reply: Reply,
        starts: &[NodeNo],
    ) -> Result<(), ClusterFault>
        requires parts { AreParts self.old }
        requires starts { AllByRecursion (λ n. n < self.old.config.nodes) starts.now }
        ensures comes { ComesTo (cluster_of self.old) (answer event reply (add_view view (start_all (last_view (cluster_of self.old)).epoch starts.now (cluster_of self.old)))) result (cluster_of self.new) }
        ensures title { self.new.trace.config ≡ self.old.trace.config }
        ensures failing { self.new.storage.failing ≡ self.old.storage.failing }
    {
        let epoch = self.last_view().epoch();
        self.views.reserve(1)?;
        self.trace.reserve(1)?;
        let entry = one_reply(self.alloc, event, reply)?;
        let started = start_nodes(self.alloc, &self.config, epoch, starts)?;
        put_started(self.nodes.as_mut_slice(), starts, started);
        self.views.push_reserved(view);
        self.trace.push(entry);
        Ok(())
    }
}

/// Whether a node is live in a view, and wasn't in the one before.
fn comes_back(before: &View, view: &View, n: NodeNo) -> bool
    requires before { n < length before.now.live }
    requires view { n < length view.now.live }
    ensures { result ≡ (is_live view.now.live n && not (is_live before.now.live n)) }
{
    view.live(n) && !before.live(n)
}
