//! What a trace tells after one moment more, each law as the clause of an empty function.

ghost use Rattle.page_laws.specs.Moment.Tells.{NothingTells, AskTells, ReadTells, WriteTells, CommitTells, EmptyTells};

/// A trace without a further moment tells what it told.
pub fn nothing_tells()
    ensures { NothingTells }
{}

/// An access that is asked for is the one that its transaction asked for last; all else stays.
pub fn ask_tells()
    ensures { AskTells }
{}

/// A granted read is a further access of its transaction and page. It is fresh where it has the version
/// of its page, and the bytes that its transaction's accesses leave of the page.
pub fn read_tells()
    ensures { ReadTells }
{}

/// A granted write is a further access of its transaction and page, with the place and bytes that were
/// asked for last. It is fresh where it has the version of its page.
pub fn write_tells()
    ensures { WriteTells }
{}

/// A commit point runs the script of its transaction on what the commits before it have made.
pub fn commit_tells()
    ensures { CommitTells }
{}

/// The empty trace tells nothing.
pub fn empty_tells()
    ensures { EmptyTells }
{}
