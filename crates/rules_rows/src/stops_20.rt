//! Worked schedules: stops 20.

ghost use Rattle.rules_rows.specs.Schedules.{ReadsAs, Prints, StaysSafe};
ghost use Rattle.rules_rows.specs.Stops20.{stop_at_recovery_write_j0};

/// Stop at recovery write j0.
pub fn row_of_stop_at_recovery_write_j0()
    ensures read { ReadsAs stop_at_recovery_write_j0 }
    ensures printed { Prints stop_at_recovery_write_j0 }
    ensures safe { StaysSafe stop_at_recovery_write_j0 }
{}
