//! Laws of the kinds of steps.

ghost use Rattle.related_runs.specs.Between.Whole.{HaltedPagesAreLeft, LostKindsAreLeft, PagesAreBetween, QuietKindsAreLeft};
ghost use Rattle.related_runs.specs.Between.Events.{EventsAreAll, EventsKeepPages};

/// A cluster whose pages are related has them as they are between two events, where no dirty copy is newer than its entry and
/// who holds a page exclusively has written it.
pub fn pages_are_between()
    ensures { PagesAreBetween }
{}

/// A refused event, an armed stop, a view and a reopening leave the pages of a cluster of a run so.
pub fn quiet_kinds_are_left()
    ensures { QuietKindsAreLeft }
{}

/// So does a node that is lost: by a crash, by a page that differs, and by a stop in a step that redoes no page.
pub fn lost_kinds_are_left()
    ensures { LostKindsAreLeft }
{}

/// And by any other stop that leaves them related.
pub fn halted_pages_are_left()
    ensures { HaltedPagesAreLeft }
{}

/// All kinds of steps are shown where the events are that are left.
pub fn events_are_all()
    ensures { EventsAreAll }
{}

/// So each step keeps the pages of a cluster of a run related.
pub fn events_keep_pages()
    ensures { EventsKeepPages }
{}
