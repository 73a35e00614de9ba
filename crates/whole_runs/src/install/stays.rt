//! What stays known of a work inside an install, each law as the clause of an empty function.

ghost use Rattle.whole_runs.specs.Install.Stays.{LostIsMidway, PurgeIsMidway};

/// The redo of a partition's page for lost nodes leaves what is known of the work.
pub fn lost_is_midway()
    ensures { LostIsMidway }
{}

/// So does the purge of its table.
pub fn purge_is_midway()
    ensures { PurgeIsMidway }
{}
