//! Worked schedules: telling 7.

ghost use Rattle.rules_rows.specs.Schedules.{ReadsAs, Prints, StaysSafe};
ghost use Rattle.rules_rows.specs.Telling7.{telling_right_of_any_version, telling_sender_not_live, telling_serves_at_once, telling_serves_before_last_report};

/// Telling right of any version.
pub fn row_of_telling_right_of_any_version()
    ensures read { ReadsAs telling_right_of_any_version }
    ensures printed { Prints telling_right_of_any_version }
    ensures safe { StaysSafe telling_right_of_any_version }
{}

/// Telling sender not live.
pub fn row_of_telling_sender_not_live()
    ensures read { ReadsAs telling_sender_not_live }
    ensures printed { Prints telling_sender_not_live }
    ensures safe { StaysSafe telling_sender_not_live }
{}

/// Telling serves at once.
pub fn row_of_telling_serves_at_once()
    ensures read { ReadsAs telling_serves_at_once }
    ensures printed { Prints telling_serves_at_once }
    ensures safe { StaysSafe telling_serves_at_once }
{}

/// Telling serves before last report.
pub fn row_of_telling_serves_before_last_report()
    ensures read { ReadsAs telling_serves_before_last_report }
    ensures printed { Prints telling_serves_before_last_report }
    ensures safe { StaysSafe telling_serves_before_last_report }
{}
