//! Laws of the changes of a table.

ghost use Rattle.page_laws.specs.Entry.Tables.{NewTablesAreIdle, TablesAreSeen, GatheringIsSeen};

/// In a new table nobody holds a page, has a right or waits, and no node has reported.
pub fn new_tables_are_idle()
    ensures { NewTablesAreIdle }
{}

/// Each change of a table makes of the entry of a page, and of the marks, what it says, and leaves all other
/// entries and marks.
pub fn tables_are_seen()
    ensures { TablesAreSeen }
{}

/// A report that is put into a table adds to the entry of a page the locks, the right and the accesses that wait
/// which it lists of the page, and its node has reported.
pub fn gathering_is_seen()
    ensures { GatheringIsSeen }
{}
