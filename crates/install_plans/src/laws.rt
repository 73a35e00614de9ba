//! The laws, each as the clause of an empty function.

ghost use Rattle.install_plans.specs.Laws.{BirthsChangeNoPlan, ReportsNameTheirOwn};

/// The plans of the state in which an install begins are those of the node once it is in the view: a
/// birth changes none of them, where the node that is born has no open transaction.
pub fn births_change_no_plan()
    ensures { BirthsChangeNoPlan }
{}

/// A report that is of the grammar of messages names pages of its partition alone.
pub fn reports_name_their_own()
    ensures { ReportsNameTheirOwn }
{}
