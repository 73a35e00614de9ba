//! The laws, each as the clause of an empty function.

ghost use Rattle.step_ends.specs.Laws.{MadeIsRan, FailedIsHalted, FailedIsArmed, OthersAreLeft};

/// A step whose changing calls are all made, and which answers and sends what its plan does, has carried the
/// plan out: an armed stop is nearer by these calls, and no other stop has changed.
pub fn made_calls_carry_out()
    ensures { MadeIsRan }
{}

/// A step of which a changing call failed was ended by the armed stop, which leaves what the rules say and
/// is gone.
pub fn a_failed_call_halts()
    ensures { FailedIsHalted }
{}

/// A changing call fails only where a stop is armed.
pub fn only_a_stop_fails()
    ensures { FailedIsArmed }
{}

/// Changing calls of a node leave the stops of all others as they are.
pub fn other_stops_stay()
    ensures { OthersAreLeft }
{}
