//! Worked schedules: stops 15.

ghost use Rattle.rules_rows.specs.Schedules.{ReadsAs, Prints, StaysSafe};
ghost use Rattle.rules_rows.specs.Stops15.{stop_at_node0_call5_write_j35};

/// Stop at node0 call5 write j35.
pub fn row_of_stop_at_node0_call5_write_j35()
    ensures read { ReadsAs stop_at_node0_call5_write_j35 }
    ensures printed { Prints stop_at_node0_call5_write_j35 }
    ensures safe { StaysSafe stop_at_node0_call5_write_j35 }
{}
