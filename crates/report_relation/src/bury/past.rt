//! Transactions that are past in a view, each law as the clause of an empty function.

ghost use Rattle.report_relation.specs.Bury.Past.{PastAreClosed, PastMayBeBuried};

/// Who was born by a view's epoch and is of no life in it is closed.
pub fn past_are_closed()
    ensures { PastAreClosed }
{}

/// The owner of a partition may bury such transactions for the eras after its own.
pub fn past_may_be_buried()
    ensures { PastMayBeBuried }
{}
