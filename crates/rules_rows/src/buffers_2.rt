//! Worked schedules: buffers 2.

ghost use Rattle.rules_rows.specs.Schedules.{ReadsAs, Prints, StaysSafe};
ghost use Rattle.rules_rows.specs.Buffers2.{cut_after_kept_force, stop_in_force_j0, stop_in_force_j35, stop_in_force_j36};

/// Cut after kept force.
pub fn row_of_cut_after_kept_force()
    ensures read { ReadsAs cut_after_kept_force }
    ensures printed { Prints cut_after_kept_force }
    ensures safe { StaysSafe cut_after_kept_force }
{}

/// Stop in force j0.
pub fn row_of_stop_in_force_j0()
    ensures read { ReadsAs stop_in_force_j0 }
    ensures printed { Prints stop_in_force_j0 }
    ensures safe { StaysSafe stop_in_force_j0 }
{}

/// Stop in force j35.
pub fn row_of_stop_in_force_j35()
    ensures read { ReadsAs stop_in_force_j35 }
    ensures printed { Prints stop_in_force_j35 }
    ensures safe { StaysSafe stop_in_force_j35 }
{}

/// Stop in force j36.
pub fn row_of_stop_in_force_j36()
    ensures read { ReadsAs stop_in_force_j36 }
    ensures printed { Prints stop_in_force_j36 }
    ensures safe { StaysSafe stop_in_force_j36 }
{}
