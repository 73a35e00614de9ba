//! What a commit logs of each page, each law as the clause of an empty function.

ghost use Rattle.page_laws.specs.Written.Record.{RecordHasWritten, RecordCanBeWritten, CommitIsLogged, CommitIsElsewhere};

/// The record of a transaction that waits for nothing has each page of which it has a private copy with
/// content, and no other.
pub fn record_has_written()
    ensures { RecordHasWritten }
{}

/// The record of a commit that isn't refused has bytes of its own, where numbers are of their types.
pub fn record_can_be_written()
    ensures { RecordCanBeWritten }
{}

/// A commit logs the next version of each page that it wrote, where the node's log has no such version yet.
pub fn commit_is_logged()
    ensures { CommitIsLogged }
{}

/// A commit changes nothing of what is stored of a page that it didn't write.
pub fn commit_is_elsewhere()
    ensures { CommitIsElsewhere }
{}
