//! Laws of the accesses of a home.

ghost use Rattle.page_laws.specs.Look.Accesses.{ReadingIsSeen, WritingIsSeen, LockingIsSeen, ReadingUnderIsSeen, WaitingIsSeen, AccessIsSeen};

/// A granted read answers what its transaction sees of the page, and changes nothing that is seen.
pub fn reading_is_seen()
    ensures { ReadingIsSeen }
{}

/// A granted write puts its bytes into the private copy and notes their places, and changes nothing else.
pub fn writing_is_seen()
    ensures { WritingIsSeen }
{}

/// A transaction that gets a lock holds its page so and doesn't wait for it; all else that is held and waited for
/// stays.
pub fn locking_is_seen()
    ensures { LockingIsSeen }
{}

/// A read under the right of the node is a shared lock under it, and its transaction is one of the right's readers.
pub fn reading_under_is_seen()
    ensures { ReadingUnderIsSeen }
{}

/// A transaction whose access isn't done at once waits for it, and nothing else changes.
pub fn waiting_is_seen()
    ensures { WaitingIsSeen }
{}

/// An access that isn't refused is done where its transaction holds the page so, is done under the right of the
/// node, or waits.
pub fn access_is_seen()
    ensures { AccessIsSeen }
{}
