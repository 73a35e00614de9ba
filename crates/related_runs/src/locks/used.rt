//! Laws of clusters whose locks were used.

ghost use Rattle.related_runs.specs.Locks.Used.{OpeningHasUsed, StepsHaveUsed};

/// In the opening cluster nobody holds a page.
pub fn opening_has_used()
    ensures { OpeningHasUsed }
{}

/// A step on any event keeps it, however it ends: a lock that is new came with an access, which a reply of the step tells.
pub fn steps_have_used()
    ensures { StepsHaveUsed }
{}
