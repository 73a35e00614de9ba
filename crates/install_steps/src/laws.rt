//! The laws, each as the clause of an empty function.

ghost use Rattle.install_steps.specs.Laws.{InstallsMakeTheirCalls, ReportsMakeTheirCalls};

/// The calls of an install are the trim of the torn rest of the node's log and then redo's writes, partition
/// by partition; those of a report that is taken are redo's writes.
pub fn installs_make_their_calls()
    ensures installs { InstallsMakeTheirCalls }
    ensures reports { ReportsMakeTheirCalls }
{}
