//! Worked schedules: stops 14.

ghost use Rattle.rules_rows.specs.Schedules.{ReadsAs, Prints, StaysSafe};
ghost use Rattle.rules_rows.specs.Stops14.{stop_at_node0_call5_write_j0};

/// Stop at node0 call5 write j0.
pub fn row_of_stop_at_node0_call5_write_j0()
    ensures read { ReadsAs stop_at_node0_call5_write_j0 }
    ensures printed { Prints stop_at_node0_call5_write_j0 }
    ensures safe { StaysSafe stop_at_node0_call5_write_j0 }
{}
