//! The laws, each as the clause of an empty function.

ghost use Rattle.partition_steps.specs.Laws.{PlannedRise, PlansAreSame, PlansStay, ReportedRise, StaysTwice};

/// A plan can be carried out, and is the same plan of the rules, as long as neither the stored pages of its
/// partition nor the whole records of the logs change. A torn rest, its trim and other pages don't matter.
pub fn plans_stay()
    ensures stay { PlansStay }
    ensures same { PlansAreSame }
    ensures twice { StaysTwice }
{}

/// What the plan of a partition writes, at an install or for a report, rises by page.
pub fn writes_rise()
    ensures planned { PlannedRise }
    ensures reported { ReportedRise }
{}
