//! Worked schedules: stops 23.

ghost use Rattle.rules_rows.specs.Schedules.{ReadsAs, Prints, StaysSafe};
ghost use Rattle.rules_rows.specs.Stops23.{stop_at_recovery_trim_after_torn_force_j36};

/// Stop at recovery trim after torn force j36.
pub fn row_of_stop_at_recovery_trim_after_torn_force_j36()
    ensures read { ReadsAs stop_at_recovery_trim_after_torn_force_j36 }
    ensures printed { Prints stop_at_recovery_trim_after_torn_force_j36 }
    ensures safe { StaysSafe stop_at_recovery_trim_after_torn_force_j36 }
{}
