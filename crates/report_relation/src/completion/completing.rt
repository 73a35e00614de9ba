//! A partition that is completed, each law as the clause of an empty function.

ghost use Rattle.report_relation.specs.Completion.Agreeing.{CompleteAgrees};
ghost use Rattle.report_relation.specs.Completion.Completed.{CompleteIsBeside, CompleteKeeps};
ghost use Rattle.report_relation.specs.Completion.Looks.{RedoKeepsWhole, RedoLooksSame};

/// Completing any partition keeps the relation of each page.
pub fn complete_keeps()
    ensures { CompleteKeeps }
{}

/// Nothing is seen of a page of another partition.
pub fn complete_is_beside()
    ensures { CompleteIsBeside }
{}

/// No page differs that is read for completing its partition.
pub fn complete_agrees()
    ensures { CompleteAgrees }
{}

/// Redo leaves the standing of the node, its messages and replies, and of its table all but versions.
pub fn redo_looks_same()
    ensures { RedoLooksSame }
{}

/// So a table that misses no report, and has all of its era, stays so.
pub fn redo_keeps_whole()
    ensures { RedoKeepsWhole }
{}
