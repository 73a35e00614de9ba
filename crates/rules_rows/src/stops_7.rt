//! Worked schedules: stops 7.

ghost use Rattle.rules_rows.specs.Schedules.{ReadsAs, Prints, StaysSafe};
ghost use Rattle.rules_rows.specs.Stops7.{stop_at_node0_call2_write_j36};

/// Stop at node0 call2 write j36.
pub fn row_of_stop_at_node0_call2_write_j36()
    ensures read { ReadsAs stop_at_node0_call2_write_j36 }
    ensures printed { Prints stop_at_node0_call2_write_j36 }
    ensures safe { StaysSafe stop_at_node0_call2_write_j36 }
{}
