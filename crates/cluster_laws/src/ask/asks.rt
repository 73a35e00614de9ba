//! Laws of accesses that wait.

ghost use Rattle.cluster_laws.specs.Ask.AskLaws.{OpeningWaitsAsAsked, StepsWaitAsAsked};

/// In the opening cluster no access waits.
pub fn opening_waits_as_asked()
    ensures { OpeningWaitsAsAsked }
{}

/// Through a step on any event each access that waits is the last one that its transaction asked for.
pub fn steps_wait_as_asked()
    ensures { StepsWaitAsAsked }
{}
