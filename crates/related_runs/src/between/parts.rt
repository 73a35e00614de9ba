//! Laws of what holds between two events, as a cluster's nodes and trace have it.

ghost use Rattle.related_runs.specs.Between.Between.{EnteredIsSeen, OpeningHasWrites, RunsHaveWrites, SeenIsEntered, StepsHaveWrites, WritesAreWrote};

/// In the opening cluster nobody holds a page.
pub fn opening_has_writes()
    ensures { OpeningHasWrites }
{}

/// Through a step each page that a transaction holds exclusively at its node it has written: a lock that is new was granted
/// for a write that its transaction had asked for last, which a reply of the step tells.
pub fn steps_have_writes()
    ensures { StepsHaveWrites }
{}

/// A page that somebody holds exclusively in the machine of one page is one that he holds so at his node; so he has written
/// it, where that is so of all nodes.
pub fn writes_are_wrote()
    ensures { WritesAreWrote }
{}

/// In a cluster of a run each page that a transaction holds exclusively at its node it has written.
pub fn runs_have_writes()
    ensures { RunsHaveWrites }
{}

/// Where the state of a page has no dirty copy that is newer than its entry, no node that serves the page has one.
pub fn entered_is_seen()
    ensures { EnteredIsSeen }
{}

/// And the other way round.
pub fn seen_is_entered()
    ensures { SeenIsEntered }
{}
