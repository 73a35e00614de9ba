//! Laws of the changes of one entry.

ghost use Rattle.page_laws.specs.Entry.Looks.{AskingIsSeen, EndingIsSeen, ReturningIsSeen, ReportingIsSeen, PurgingIsSeen};

/// A request changes only who waits: one more waits, unless it waited already or holds what it asks for.
pub fn asking_is_seen()
    ensures { AskingIsSeen }
{}

/// After its end a transaction holds nothing and waits for nothing, and all others are as before; a change is
/// taken just where it is an exclusive holder's and of the next version, and then it makes that version.
pub fn ending_is_seen()
    ensures { EndingIsSeen }
{}

/// A right that comes back leaves the entry, and each of its readers that held nothing is a shared holder; where
/// the node has no right nothing changes.
pub fn returning_is_seen()
    ensures { ReturningIsSeen }
{}

/// A lock or a right that a report lists is in the entry beside what was there.
pub fn reporting_is_seen()
    ensures { ReportingIsSeen }
{}

/// After a purge the entry has just what it had of live nodes.
pub fn purging_is_seen()
    ensures { PurgingIsSeen }
{}
