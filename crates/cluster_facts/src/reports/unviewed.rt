//! Laws of nodes that are up in no view.

ghost use Rattle.cluster_facts.specs.Reports.Unviewed.{OpeningHasNoRights, StepsKeepUnviewed, UnviewedHaveNoRight};

/// In the opening cluster no node in no view has a right.
pub fn opening_has_no_rights()
    ensures { OpeningHasNoRights }
{}

/// A step on any event keeps it, however it ends.
pub fn steps_keep_unviewed()
    ensures { StepsKeepUnviewed }
{}

/// So a node in no view has no right of any page.
pub fn unviewed_have_no_right()
    ensures { UnviewedHaveNoRight }
{}
