//! Laws of every run.

ghost use Rattle.whole_runs.specs.Runs.{EndsAreTrue, NoStepDiffers, RunsAreKnown, RunsAreSafe, RunsAreTrue, StepsGoOn, StepsKeepPages};

/// Each step leaves the pages of a cluster of a run related to the machine of one page.
pub fn steps_keep_pages()
    ensures { StepsKeepPages }
{}

/// So it comes to such a cluster, with what installs and reports need of it.
pub fn steps_go_on()
    ensures { StepsGoOn }
{}

/// Every cluster of every run is such a one.
pub fn runs_are_known()
    ensures { RunsAreKnown }
{}

/// Every cluster of every run is fresh, serial and durable.
pub fn runs_are_true()
    ensures { RunsAreTrue }
{}

/// So is the last one.
pub fn ends_are_true()
    ensures { EndsAreTrue }
{}

/// Where each message of a run has its cause, every cluster of it is safe.
pub fn runs_are_safe()
    ensures { RunsAreSafe }
{}

/// No page that a node reads in a step of a run has another number or version than it must.
pub fn no_step_differs()
    ensures { NoStepDiffers }
{}
