//! What commits make of the pages, each law as the clause of an empty function.

ghost use Rattle.page_laws.specs.Moment.Commit.{WritesAreLeft, CommitRuns, NowBegins, NowHasAllPages, PagesAreNow, NowHasPages, NowIsSerial};

/// The writes of a script, put over a page, are what its accesses of the page leave.
pub fn writes_are_left()
    ensures { WritesAreLeft }
{}

/// A commit whose accesses run well on each page, and are of pages of the database, leaves each page as
/// they leave it, at the next version where they write.
pub fn commit_runs()
    ensures { CommitRuns }
{}

/// Before any commit each page is at version 0 with zero bytes.
pub fn now_begins()
    ensures { NowBegins }
{}

/// What commits have made has as many pages as the database.
pub fn now_has_all_pages()
    ensures { NowHasAllPages }
{}

/// Where what commits have made of each page is known, it is known of all pages together.
pub fn pages_are_now()
    ensures { PagesAreNow }
{}

/// Where it is known of all pages together, it is known of each.
pub fn now_has_pages()
    ensures { NowHasPages }
{}

/// Where running the commits leads to a result, they are serial.
pub fn now_is_serial()
    ensures { NowIsSerial }
{}
