//! The law of the epoch and the view of a node.

ghost use Rattle.cluster_laws.specs.Epochs.{StepsKeepViews};

/// A step of a node keeps its epoch and its view, or installs the view of its event, which the node wasn't
/// refused.
pub fn steps_keep_views()
    ensures { StepsKeepViews }
{}
