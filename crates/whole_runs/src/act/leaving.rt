//! What such steps leave of all pages, each law as the clause of an empty function.

ghost use Rattle.whole_runs.specs.Act.Leaving.{AllActsKeep, ActsLeavePages};

/// Where installs and reports that are taken keep the relation, a step that a node makes whole keeps it, whatever its
/// event.
pub fn all_acts_keep()
    ensures { AllActsKeep }
{}

/// Where besides who holds a page exclusively has written it, such a step leaves all pages related.
pub fn acts_leave_pages()
    ensures { ActsLeavePages }
{}
