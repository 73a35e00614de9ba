//! A table without a missing report, each law as the clause of an empty function.

ghost use Rattle.report_relation.specs.Settled.{AllAreSettled};
ghost use Rattle.report_relation.specs.Serving.{CompletingIsStep};
ghost use Rattle.report_relation.specs.Completing.{OthersHaveReached, ReadyMayComplete, UpHaveReached};

/// Each other node that is up and in a view has reached the era of a table without a missing report.
pub fn others_have_reached()
    ensures { OthersHaveReached }
{}

/// Where no report is missing nobody serves, and the era has all that it needs.
pub fn ready_may_complete()
    ensures { ReadyMayComplete }
{}

/// The epoch of each other node that is up, in a view or in none, has reached the era of such a table.
pub fn up_have_reached()
    ensures { UpHaveReached }
{}

/// A table without a missing report, whose pages are redone, is served: the machine's completion.
pub fn completing_is_step()
    ensures { CompletingIsStep }
{}

/// All pages of a partition are settled, which keeps the relation of each page.
pub fn all_are_settled()
    ensures { AllAreSettled }
{}
