//! The law of one step of a node.

ghost use Rattle.cluster_facts.specs.Known.Gains.{StepsGain};

/// A lock after a step was held before, or is under a right, or is of a table that serves; a right was there or came with
/// a grant; an answer is of a right that was there; and a table that serves goes on serving.
pub fn steps_gain()
    ensures { StepsGain }
{}
