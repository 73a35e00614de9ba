//! The machine comes to the state without the dead, each law as the clause of an empty function.

ghost use Rattle.kept_relation.specs.Emptying.{EmptyingIsRun, EmptyingEarlyIsRun};

/// A table that serves comes to have nothing of dead transactions and of nodes that are gone.
pub fn emptying_is_run()
    ensures { EmptyingIsRun }
{}

/// A table that is being rebuilt comes to have nothing of dead transactions.
pub fn emptying_early_is_run()
    ensures { EmptyingEarlyIsRun }
{}
