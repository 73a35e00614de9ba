//! The laws, each as the clause of an empty function.

ghost use Rattle.redo_laws.specs.Laws.{AppendedIsRedone, AppendedElsewhere, AppendedIsWhole, TornChangesNothing, TrimChangesNothing, TrimmedIsWhole, CutChangesNothing, WrittenChangesNothing, RedoneMayBeWritten, RedoIsNoOlder, GreatestIsGreatest};

/// Where redo of a page is a version and bytes, a record of the page at the next version, appended
/// behind whole records, makes redo that record's. No changed ranges of the version behind that
/// may stand in the logs.
pub fn appended_is_redone()
    ensures { AppendedIsRedone }
{}

/// A record without the page, appended behind whole records, changes nothing of the page.
pub fn appended_elsewhere()
    ensures { AppendedElsewhere }
{}

/// A log of whole records has no torn rest after a further one.
pub fn appended_is_whole()
    ensures { AppendedIsWhole }
{}

/// A torn piece of a record behind whole records changes nothing.
pub fn torn_changes_nothing()
    ensures { TornChangesNothing }
{}

/// A trim of the torn rest changes nothing.
pub fn trim_changes_nothing()
    ensures { TrimChangesNothing }
{}

/// A log has no torn rest once that is trimmed.
pub fn trimmed_is_whole()
    ensures { TrimmedIsWhole }
{}

/// A cut of whole records from the front of a log changes nothing of a page, where the stored page
/// has all their versions of it or a later one.
pub fn cut_changes_nothing()
    ensures { CutChangesNothing }
{}

/// A stored page that is written with a version and bytes that redo passes through changes
/// nothing. Redo passes through each page on its way, and through each page that is no older than
/// the stored one and older than a whole page in the logs.
pub fn written_changes_nothing()
    ensures { WrittenChangesNothing }
{}

/// What redo gives may be written: that changes nothing of redo.
pub fn redone_may_be_written()
    ensures { RedoneMayBeWritten }
{}

/// Redo is never older than the stored page.
pub fn redo_is_no_older()
    ensures { RedoIsNoOlder }
{}

/// No entry of a page is above its greatest version, and one has it, or it is 0.
pub fn greatest_is_greatest()
    ensures { GreatestIsGreatest }
{}
