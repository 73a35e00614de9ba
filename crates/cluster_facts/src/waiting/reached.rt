//! Laws of those who wait at a table.

ghost use Rattle.cluster_facts.specs.Waiting.Reached.{OpeningHasReached, StepsKeepReached, WaitersHaveReached};

/// In the opening cluster nobody waits at a table whose era its node hasn't reached.
pub fn opening_has_reached()
    ensures { OpeningHasReached }
{}

/// A step on any event keeps it, however it ends.
pub fn steps_keep_reached()
    ensures { StepsKeepReached }
{}

/// In a related cluster each waiter of a page's entry has its home in the era of the table, or in a later one.
pub fn waiters_have_reached()
    ensures { WaitersHaveReached }
{}
