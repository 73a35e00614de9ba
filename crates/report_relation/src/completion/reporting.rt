//! A report that is taken, each law as the clause of an empty function.

ghost use Rattle.report_relation.specs.Completion.Agreeing.{NoReportDiffers};
ghost use Rattle.report_relation.specs.Completion.Reported.{ReportIsKept};

/// A report that is taken keeps the relation, also where no further one is missing.
pub fn report_is_kept()
    ensures { ReportIsKept }
{}

/// No page differs that is read for a report.
pub fn no_report_differs()
    ensures { NoReportDiffers }
{}
