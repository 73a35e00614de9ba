//! How a step starts and ends, each law as the clause of an empty function.

ghost use Rattle.page_relation.specs.Work.StepEnds.{StartIsRelated, HeadIsSaid, EndIsLanded, RefusedIsKept};

/// A step starts from a work that has the state of the machine that the cluster has.
pub fn start_is_related()
    ensures { StartIsRelated }
{}

/// What is known of a message that was taken from its link: what it says, and that no second one of its kind comes.
pub fn head_is_said()
    ensures { HeadIsSaid }
{}

/// A step that no stop ends is the cluster of its last work.
pub fn end_is_landed()
    ensures { EndIsLanded }
{}

/// A refused event of a node keeps the relation, with the same state of the machine.
pub fn refused_is_kept()
    ensures { RefusedIsKept }
{}
