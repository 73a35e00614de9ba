//! Worked schedules: stops 21.

ghost use Rattle.rules_rows.specs.Schedules.{ReadsAs, Prints, StaysSafe};
ghost use Rattle.rules_rows.specs.Stops21.{stop_at_recovery_write_j36};

/// Stop at recovery write j36.
pub fn row_of_stop_at_recovery_write_j36()
    ensures read { ReadsAs stop_at_recovery_write_j36 }
    ensures printed { Prints stop_at_recovery_write_j36 }
    ensures safe { StaysSafe stop_at_recovery_write_j36 }
{}
