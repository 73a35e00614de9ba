//! Laws of the clusters in a run.

ghost use Rattle.cluster_laws.specs.Laws.{OpeningIsCluster, StepKeepsClusters, RunsAreClusters, EventsCanCome, HandedIsStepped, UpIsMember, PlansAreGood};

/// The opening cluster, of sizes within their limits, is sound.
pub fn opening_is_cluster()
    ensures { OpeningIsCluster }
{}

/// A step on any event keeps a cluster sound: its views follow one another, each node that is up is sound and
/// belongs to them, and what is on the links are messages of the grammar.
pub fn step_keeps_clusters()
    ensures { StepKeepsClusters }
{}

/// So each cluster in a run is sound.
pub fn runs_are_clusters()
    ensures { RunsAreClusters }
{}

/// The event that a node gets of the cluster's can come to it: a message is of the grammar and from another
/// node, and a view is whole and keeps the node live.
pub fn events_can_come()
    ensures { EventsCanCome }
{}

/// Where a node gets an event, the cluster's step is the one of that node.
pub fn handed_is_stepped()
    ensures { HandedIsStepped }
{}

/// A node that is up is one of the cluster's, and what holds of members holds of it.
pub fn up_is_member()
    ensures { UpIsMember }
{}

/// The plan of a node for the event that it gets is that of a sound node over a disk of the cluster; it leaves
/// a member, and each message that it sends may go on its link.
pub fn plans_are_good()
    ensures { PlansAreGood }
{}
