//! The calls of a node as steps of the machine of one page, each law as the clause of an empty function.

ghost use Rattle.page_laws.specs.Storage.Machine.{PagesAreWritten, CurrentStands, RecordsAreOld, CommitsAreForced, CutsAreCutting, CurrentIsRedone, GreatestTellsEntry};

/// A page that a node writes is what the machine's steps put on disk: a restored version, a dirty copy,
/// a change that was released, or the page as redo gives it.
pub fn pages_are_written()
    ensures { PagesAreWritten }
{}

/// A page whose disk isn't behind the current version has the current page there, so redo needs no write.
pub fn current_stands()
    ensures { CurrentStands }
{}

/// No log has a record past the current version.
pub fn records_are_old()
    ensures { RecordsAreOld }
{}

/// A commit that forces the next version, behind whole records, is the machine's.
pub fn commits_are_forced()
    ensures { CommitsAreForced }
{}

/// A cut of what may be cut is the machine's, up to some version that the disk has.
pub fn cuts_are_cutting()
    ensures { CutsAreCutting }
{}

/// Redo of a page gives the machine's current page.
pub fn current_is_redone()
    ensures { CurrentIsRedone }
{}

/// The greatest version of a served page in some nodes' logs is above its entry exactly where one of
/// these logs has the next version, and then that is the current one.
pub fn greatest_tells_entry()
    ensures { GreatestTellsEntry }
{}
