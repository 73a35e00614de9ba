//! The redo of pages whose table is being rebuilt, each law as the clause of an empty function.

ghost use Rattle.report_relation.specs.AllRedone.{AllAreRedone};
ghost use Rattle.report_relation.specs.RedoneMidway.{RedoIsMidway};
ghost use Rattle.report_relation.specs.Redoing.{RedoAgrees, RedoIsRelated};

/// No page that is redone differs.
pub fn redo_agrees()
    ensures { RedoAgrees }
{}

/// The redo of pages keeps the relation; the page, where it is one of them, is on disk then as it is.
pub fn redo_is_related()
    ensures { RedoIsRelated }
{}

/// What is known of a work inside a step stays through the redo of a page.
pub fn redo_is_midway()
    ensures { RedoIsMidway }
{}

/// The redo of all pages of its partition keeps the relation of a page, and leaves it on disk as it is now.
pub fn all_are_redone()
    ensures { AllAreRedone }
{}
