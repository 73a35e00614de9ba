//! The laws, as the clauses of empty functions.

ghost use Rattle.account_relation.specs.Entry.Entries.{AskingIsWanted, EndingIsWanted, PurgingIsWanted, ReturningIsOut, ReportingIsOut, PurgingIsOut};

/// A request brings its item, and all that wait then have theirs.
pub fn asking_is_wanted()
    ensures { AskingIsWanted }
{}

/// A release takes the items of its transaction for the page, and all that wait on have theirs.
pub fn ending_is_wanted()
    ensures { EndingIsWanted }
{}

/// Those of live nodes that wait have their items.
pub fn purging_is_wanted()
    ensures { PurgingIsWanted }
{}

/// An answer takes the rights of its node for the page, and all that stay are out.
pub fn returning_is_out()
    ensures { ReturningIsOut }
{}

/// A right that a report lists is out, and so are those before it.
pub fn reporting_is_out()
    ensures { ReportingIsOut }
{}

/// Rights of live nodes are out.
pub fn purging_is_out()
    ensures { PurgingIsOut }
{}
