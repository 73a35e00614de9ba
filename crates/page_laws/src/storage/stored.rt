//! What calls change of what is stored of a page, each law as the clause of an empty function.

ghost use Rattle.page_laws.specs.Storage.Stored.{FreshIsStored, StoredIsRead, WrittenIsStored, WrittenElsewhere, ForcedIsLogged, ForcedElsewhere, TornIsNotLogged, TrimmedIsStored, CutTakesOld, CutIsFound, StoppedLeaves, StopsLeave, WholeIsItsLength, WholeStays, OtherLogsStay};

/// On fresh storage each page is at version 0 with zero bytes, and no log has a record.
pub fn fresh_is_stored()
    ensures { FreshIsStored }
{}

/// A stored page is read as its copy, so its number doesn't differ.
pub fn stored_is_read()
    ensures { StoredIsRead }
{}

/// A page of the database that is written at a version of its type is on disk at that version, with
/// its bytes; the logs stay.
pub fn written_is_stored()
    ensures { WrittenIsStored }
{}

/// A write of another page changes nothing of a page.
pub fn written_elsewhere()
    ensures { WrittenElsewhere }
{}

/// A record that is forced whole, behind whole records of lower versions of the page, is its node's
/// record of its version; nothing else changes.
pub fn forced_is_logged()
    ensures { ForcedIsLogged }
{}

/// A record without the page, forced whole behind whole records, changes nothing of the page.
pub fn forced_elsewhere()
    ensures { ForcedElsewhere }
{}

/// A force that is stopped within its record changes nothing.
pub fn torn_is_not_logged()
    ensures { TornIsNotLogged }
{}

/// A trim of the torn rest changes nothing.
pub fn trimmed_is_stored()
    ensures { TrimmedIsStored }
{}

/// A cut of what may be cut takes the node's records up to some version that the disk has.
pub fn cut_takes_old()
    ensures { CutTakesOld }
{}

/// Where each page stands on disk under its own number, the length that may be cut of a log is found.
pub fn cut_is_found()
    ensures { CutIsFound }
{}

/// A stopped call is undone, or done, or a force that leaves a piece of its bytes; and the transaction
/// of a force is kept exactly where all its bytes are.
pub fn stopped_leaves()
    ensures { StoppedLeaves }
{}

/// A stop within some calls leaves those before it done, and the stopped one as it leaves it.
pub fn stops_leave()
    ensures { StopsLeave }
{}

/// A log has no torn rest exactly where it is as long as its whole records.
pub fn whole_is_its_length()
    ensures { WholeIsItsLength }
{}

/// A log without a torn rest has none after a whole record or a cut; and none once it is trimmed.
pub fn whole_stays()
    ensures { WholeStays }
{}

/// A call of one node leaves the log of another, stopped or not.
pub fn other_logs_stay()
    ensures { OtherLogsStay }
{}
