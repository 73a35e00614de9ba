//! The redo of pages for lost nodes, each law as the clause of an empty function.

ghost use Rattle.kept_relation.specs.Redoing.{RedoKeeps, RedoAgrees};

/// Redo for lost nodes keeps the relation, and then their logs have no change after the entry.
pub fn redo_keeps()
    ensures { RedoKeeps }
{}

/// No page that is read for it differs.
pub fn redo_agrees()
    ensures { RedoAgrees }
{}
