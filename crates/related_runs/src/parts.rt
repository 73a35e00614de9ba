//! Laws of what steps keep beside the pages.

ghost use Rattle.related_runs.specs.Parts.{OpeningHasSerials, StepsHaveSerials, StepsHaveAsked, RelatedKeepsLogs, OpeningHasWithin, StepsHaveWithin};

/// In the opening cluster no home has given a serial.
pub fn opening_has_serials()
    ensures { OpeningHasSerials }
{}

/// Through a step each home has given fewer than 2^32 serials.
pub fn steps_have_serials()
    ensures { StepsHaveSerials }
{}

/// Through a step each access that waits is the last one that its transaction asked for.
pub fn steps_have_asked()
    ensures { StepsHaveAsked }
{}

/// Through a step from a related cluster the logs of all nodes in a view stay whole.
pub fn related_keeps_logs()
    ensures { RelatedKeepsLogs }
{}

/// In the opening cluster no transaction has accessed a page.
pub fn opening_has_within()
    ensures { OpeningHasWithin }
{}

/// Through a step no transaction has accessed a page past the last.
pub fn steps_have_within()
    ensures { StepsHaveWithin }
{}
