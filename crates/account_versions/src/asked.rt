//! Laws of granted writes: each was asked for.

ghost use Rattle.account_versions.specs.Asked.{OpeningHasAskedWrites, RunsHaveAskedWrites, StepsHaveAskedWrites};

/// The opening cluster has granted no write.
pub fn opening_has_asked_writes()
    ensures { OpeningHasAskedWrites }
{}

/// After a step on any event each granted write is of an access that asked for one.
pub fn steps_have_asked_writes()
    ensures { StepsHaveAskedWrites }
{}

/// So it is in every cluster of every run.
pub fn runs_have_asked_writes()
    ensures { RunsHaveAskedWrites }
{}
