//! A partition at an install, each law as the clause of an empty function.

ghost use Rattle.report_relation.specs.Bury.Installed.{InstalledIsAwaited, InstalledIsKept, NewIsKnown};

/// What is known of a table that a node keeps is known of it before its partition's turn.
pub fn installed_is_kept()
    ensures { InstalledIsKept }
{}

/// Reports that a table misses before an install it misses then.
pub fn installed_is_awaited()
    ensures { InstalledIsAwaited }
{}

/// The table that a node's own report makes is known as it has to be for its completion.
pub fn new_is_known()
    ensures { NewIsKnown }
{}
