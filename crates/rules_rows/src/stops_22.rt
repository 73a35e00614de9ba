//! Worked schedules: stops 22.

ghost use Rattle.rules_rows.specs.Schedules.{ReadsAs, Prints, StaysSafe};
ghost use Rattle.rules_rows.specs.Stops22.{stop_at_recovery_trim_after_torn_force_j0};

/// Stop at recovery trim after torn force j0.
pub fn row_of_stop_at_recovery_trim_after_torn_force_j0()
    ensures read { ReadsAs stop_at_recovery_trim_after_torn_force_j0 }
    ensures printed { Prints stop_at_recovery_trim_after_torn_force_j0 }
    ensures safe { StaysSafe stop_at_recovery_trim_after_torn_force_j0 }
{}
