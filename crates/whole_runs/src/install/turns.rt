//! What the turn of a page's partition needs, each law as the clause of an empty function.

ghost use Rattle.whole_runs.specs.Install.Turns.{KeptGoesOn, TakenCanBeWhole, TakenIsCompleted, TakenMayComplete, TurnsAreKept, TurnsArePurged, TurnsAreUsed, UnviewedAreQuiet, WaitersAreHeard};

/// A node in no view has no right of the page.
pub fn unviewed_are_quiet()
    ensures { UnviewedAreQuiet }
{}

/// Who waits at a table and is of a node that is up waits in no later era than the one that the node has reached.
pub fn waiters_are_heard()
    ensures { WaitersAreHeard }
{}

/// Before the turn of the page's partition each lock of the node was used.
pub fn turns_are_used()
    ensures { TurnsAreUsed }
{}

/// A table that the node keeps is known as it has to be before its partition is worked off.
pub fn turns_are_kept()
    ensures { TurnsAreKept }
{}

/// One that is being rebuilt is known, once it is purged, as it has to be for its completion.
pub fn turns_are_purged()
    ensures { TurnsArePurged }
{}

/// A partition that the node keeps is worked off, and the relation stays.
pub fn kept_goes_on()
    ensures { KeptGoesOn }
{}

/// The new table of a partition that the node gets has all of its era where it misses no report.
pub fn taken_can_be_whole()
    ensures { TakenCanBeWhole }
{}

/// So it may be completed.
pub fn taken_may_complete()
    ensures { TakenMayComplete }
{}

/// Completing it keeps the relation.
pub fn taken_is_completed()
    ensures { TakenIsCompleted }
{}
