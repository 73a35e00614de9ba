//! Laws of reports on links, and of the tables where they come to.

ghost use Rattle.cluster_facts.specs.Reports.ReportLaws.{OpeningHasReports, StepsKeepReports, ReportsAreAwaited, ReportsAreOnce};

/// In the opening cluster no report is on the way, and each owner serves its partition.
pub fn opening_has_reports()
    ensures { OpeningHasReports }
{}

/// What is known of reports is kept by a step on any event, however it ends.
pub fn steps_keep_reports()
    ensures { StepsKeepReports }
{}

/// A report that comes to a table of its era which is being rebuilt, and counts there, is one that the table misses.
pub fn reports_are_awaited()
    ensures { ReportsAreAwaited }
{}

/// Behind a report at the head of a link there is no other one of its partition and era.
pub fn reports_are_once()
    ensures { ReportsAreOnce }
{}
