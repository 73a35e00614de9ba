//! Worked schedules: paths 3.

ghost use Rattle.rules_rows.specs.Schedules.{ReadsAs, Prints, StaysSafe};
ghost use Rattle.rules_rows.specs.Paths3.{current_copy};

/// Current copy.
pub fn row_of_current_copy()
    ensures read { ReadsAs current_copy }
    ensures printed { Prints current_copy }
    ensures safe { StaysSafe current_copy }
{}
