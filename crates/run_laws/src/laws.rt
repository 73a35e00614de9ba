//! The laws, each as the clause of an empty function.

ghost use Rattle.run_laws.specs.Laws.{ScriptGrows, RunGoesOn, WorkIsWritten, RunIsRaised};

/// One moment more adds its steps to a script.
pub fn script_grows()
    ensures { ScriptGrows }
{}

/// Steps go on from the pages that the steps before them left.
pub fn run_goes_on()
    ensures { RunGoesOn }
{}

/// The working pages are the first pages with the writes over them.
pub fn work_is_written()
    ensures { WorkIsWritten }
{}

/// A run leaves the working pages with the next versions of those that were written.
pub fn run_is_raised()
    ensures { RunIsRaised }
{}
