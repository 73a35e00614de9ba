//! Worked schedules: stops 1.

ghost use Rattle.rules_rows.specs.Schedules.{ReadsAs, Prints, StaysSafe};
ghost use Rattle.rules_rows.specs.Stops1.{stop_at_no_stop};

/// Stop at no stop.
pub fn row_of_stop_at_no_stop()
    ensures read { ReadsAs stop_at_no_stop }
    ensures printed { Prints stop_at_no_stop }
    ensures safe { StaysSafe stop_at_no_stop }
{}
