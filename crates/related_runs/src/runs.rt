//! Laws of clusters of runs, and of steps that keep their pages related.

ghost use Rattle.related_runs.specs.Kinds.{KindsAreAll};
ghost use Rattle.related_runs.specs.RunLaws.{OpeningIsOfRun, StepsGoOn};

/// A step keeps the pages of a cluster of a run related, where the steps of each kind from that cluster do.
pub fn kinds_are_all()
    ensures { KindsAreAll }
{}

/// Where a step leaves the pages related, it keeps all else that holds of a cluster of a run.
pub fn steps_go_on()
    ensures { StepsGoOn }
{}

/// The opening cluster is one of a run.
pub fn opening_is_of_run()
    ensures { OpeningIsOfRun }
{}
