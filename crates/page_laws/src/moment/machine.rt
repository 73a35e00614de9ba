//! Granted accesses and commits as the machine of one page has them, each law as the clause of an empty
//! function.

ghost use Rattle.page_laws.specs.Moment.Machine.{ReadsAreReading, WritesAreWriting, CommitsAreCommitting};

/// A granted read that gives what its transaction sees of the page is the machine's, and fresh where it has
/// the version of its node's copy.
pub fn reads_are_reading()
    ensures { ReadsAreReading }
{}

/// A granted write of the bytes that were asked for last is the machine's, and fresh where it has the
/// version of its node's copy.
pub fn writes_are_writing()
    ensures { WritesAreWriting }
{}

/// A commit that is the machine's at each page of the database, for a transaction with accesses of no
/// other page, leaves the machine's current pages.
pub fn commits_are_committing()
    ensures { CommitsAreCommitting }
{}
