//! Worked schedules: stops 9.

ghost use Rattle.rules_rows.specs.Schedules.{ReadsAs, Prints, StaysSafe};
ghost use Rattle.rules_rows.specs.Stops9.{stop_at_node0_call3_force_j35};

/// Stop at node0 call3 force j35.
pub fn row_of_stop_at_node0_call3_force_j35()
    ensures read { ReadsAs stop_at_node0_call3_force_j35 }
    ensures printed { Prints stop_at_node0_call3_force_j35 }
    ensures safe { StaysSafe stop_at_node0_call3_force_j35 }
{}
