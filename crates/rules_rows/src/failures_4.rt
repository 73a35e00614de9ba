//! Worked schedules: failures 4.

ghost use Rattle.rules_rows.specs.Schedules.{ReadsAs, Prints, StaysSafe};
ghost use Rattle.rules_rows.specs.Failures4.{survivor_commits_after_report, survivor_commits_before_report};

/// Survivor commits after report.
pub fn row_of_survivor_commits_after_report()
    ensures read { ReadsAs survivor_commits_after_report }
    ensures printed { Prints survivor_commits_after_report }
    ensures safe { StaysSafe survivor_commits_after_report }
{}

/// Survivor commits before report.
pub fn row_of_survivor_commits_before_report()
    ensures read { ReadsAs survivor_commits_before_report }
    ensures printed { Prints survivor_commits_before_report }
    ensures safe { StaysSafe survivor_commits_before_report }
{}
