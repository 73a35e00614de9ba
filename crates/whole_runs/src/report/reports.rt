//! Laws of reports, each as the clause of an empty function.

ghost use Rattle.whole_runs.specs.Report.Known.{TablesAreKnown, ReportsMayBeTaken};
ghost use Rattle.whole_runs.specs.Report.Reports.{ReportsKeep, NoReportDiffers};

/// Of each table that is being rebuilt is known what it needs when a report comes.
pub fn tables_are_known()
    ensures { TablesAreKnown }
{}

/// So a report that is taken finds nobody ahead, and the last one completes the era.
pub fn reports_may_be_taken()
    ensures { ReportsMayBeTaken }
{}

/// A whole step on a report that is taken leaves the pages related.
pub fn reports_keep()
    ensures { ReportsKeep }
{}

/// No page differs in a step on a report.
pub fn no_report_differs()
    ensures { NoReportDiffers }
{}
