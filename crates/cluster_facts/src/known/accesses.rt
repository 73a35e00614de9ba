//! The law of new accesses.

ghost use Rattle.cluster_facts.specs.Known.Accesses.{NewAccessesAreHeld};

/// Who first accesses a page in a step holds it once the step is done.
pub fn new_accesses_are_held()
    ensures { NewAccessesAreHeld }
{}
