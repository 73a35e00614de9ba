//! A report that is put into a table, each law as the clause of an empty function.

ghost use Rattle.report_relation.specs.Bury.Gathered.{GatheredIsKnown, GatheredIsWhole, NobodyIsAheadOfIt};

/// Nobody is ahead of a report that is taken.
pub fn nobody_is_ahead_of_it()
    ensures { NobodyIsAheadOfIt }
{}

/// What is known of a table before a report is known of it with the report.
pub fn gathered_is_known()
    ensures { GatheredIsKnown }
{}

/// Where no further report is missing the table has all of its era, once who is past is buried.
pub fn gathered_is_whole()
    ensures { GatheredIsWhole }
{}
