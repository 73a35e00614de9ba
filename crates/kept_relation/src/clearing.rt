//! What stays through redo, as the clause of an empty function.

ghost use Rattle.kept_relation.specs.Clearing.{ClearStays};

/// What a partition needs before its purge stays through redo.
pub fn clear_stays()
    ensures { ClearStays }
{}
