//! A table that is being rebuilt, each law as the clause of an empty function.

ghost use Rattle.report_relation.specs.Bury.Whole.{KnownIsWhole, NobodyIsAhead};

/// Of a node whose report is still to come nobody waits whom the era lists as writing the page.
pub fn nobody_is_ahead()
    ensures { NobodyIsAhead }
{}

/// A table without a missing report has all of its era, once who is past is buried.
pub fn known_is_whole()
    ensures { KnownIsWhole }
{}
