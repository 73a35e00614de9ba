//! Laws of what a step adds to the trace and to the links.

ghost use Rattle.cluster_laws.specs.Counting.{StepsAreCounted, OtherLinksStay, LinksGrowByMost};

/// A step adds one entry to the trace, which is of its event. It has one reply at most and no sends, or is
/// of a node's step, and then it has at most as many of each as that step gives at most.
pub fn steps_are_counted()
    ensures { StepsAreCounted }
{}

/// A link from another node than the acting one stays as it was, or loses the head that was delivered, or is
/// empty, as its receiver is down.
pub fn other_links_stay()
    ensures { OtherLinksStay }
{}

/// A link from the acting node gets at most as many messages as its step gives at most.
pub fn links_grow_by_most()
    ensures { LinksGrowByMost }
{}
