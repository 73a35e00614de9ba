//! Worked schedules: stops 13.

ghost use Rattle.rules_rows.specs.Schedules.{ReadsAs, Prints, StaysSafe};
ghost use Rattle.rules_rows.specs.Stops13.{stop_at_node0_call4_cut_j36};

/// Stop at node0 call4 cut j36.
pub fn row_of_stop_at_node0_call4_cut_j36()
    ensures read { ReadsAs stop_at_node0_call4_cut_j36 }
    ensures printed { Prints stop_at_node0_call4_cut_j36 }
    ensures safe { StaysSafe stop_at_node0_call4_cut_j36 }
{}
