//! The laws, each as the clause of an empty function.

ghost use Rattle.cluster_parts.specs.Laws.{StepsAreTold, MadeStepsAreSteps, StoppedStepsAreSteps, LostNodesLeaveClusters, ComingKeepsParts, OpeningsAreParts, RoomSuffices};

/// What the storage of a node's step tells is what became of the cluster: the plan was carried out, or ended
/// by a stop.
pub fn steps_are_told()
    ensures { StepsAreTold }
{}

/// A plan that was carried out is the cluster's step, once its messages are sent and it is noted.
pub fn made_steps_are_steps()
    ensures { MadeStepsAreSteps }
{}

/// A plan that a stop has ended is the cluster's step, once its node is lost and it is noted.
pub fn stopped_steps_are_steps()
    ensures { StoppedStepsAreSteps }
{}

/// Whatever a node's step came to, the cluster without that node is one, as long as the storage keeps its
/// sizes.
pub fn lost_nodes_leave_clusters()
    ensures { LostNodesLeaveClusters }
{}

/// What holds of the parts of a cluster is kept where these come to the step of the rules.
pub fn coming_keeps_parts()
    ensures { ComingKeepsParts }
{}

/// It holds of the parts of an opening cluster.
pub fn openings_are_parts()
    ensures { OpeningsAreParts }
{}

/// Room for what a step gives at most is room for all that its plan sends and notes.
pub fn room_suffices()
    ensures { RoomSuffices }
{}
