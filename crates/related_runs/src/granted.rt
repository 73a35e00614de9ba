//! Laws of what a node grants in a step.

ghost use Rattle.related_runs.specs.Granted.{GrantsStand, StepsKeepSerials};

/// Each access that a node grants in a step stands at its home after it: its transaction holds the page and doesn't
/// wait for it, and the page's copy has the version of the reply. Commit points come before granted accesses.
pub fn grants_stand()
    ensures { GrantsStand }
{}

/// A home that has given fewer than 2^32 serials has so after a step too.
pub fn steps_keep_serials()
    ensures { StepsKeepSerials }
{}
