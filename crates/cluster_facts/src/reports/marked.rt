//! Laws of those who wait at a table that is being rebuilt.

ghost use Rattle.cluster_facts.specs.Reports.Marked.{OpeningHasMarked, StepsKeepMarked, PagesAreMarked};

/// In the opening cluster no table is being rebuilt.
pub fn opening_has_marked()
    ensures { OpeningHasMarked }
{}

/// A step on any event, however it ends, leaves at such a table only those who wait there and whose nodes it marks, or
/// whose nodes were born after its era and owe no report.
pub fn steps_keep_marked()
    ensures { StepsKeepMarked }
{}

/// So it is of all who wait for a page.
pub fn pages_are_marked()
    ensures { PagesAreMarked }
{}
