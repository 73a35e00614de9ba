//! Worked schedules: stops 19.

ghost use Rattle.rules_rows.specs.Schedules.{ReadsAs, Prints, StaysSafe};
ghost use Rattle.rules_rows.specs.Stops19.{stop_at_node1_call1_force_j36};

/// Stop at node1 call1 force j36.
pub fn row_of_stop_at_node1_call1_force_j36()
    ensures read { ReadsAs stop_at_node1_call1_force_j36 }
    ensures printed { Prints stop_at_node1_call1_force_j36 }
    ensures safe { StaysSafe stop_at_node1_call1_force_j36 }
{}
