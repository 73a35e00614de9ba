//! Redo as the machine of one page has it, each law as the clause of an empty function.

ghost use Rattle.page_laws.specs.Storage.Redone.{RangesArePut, RedoneIsReached, RedoIsReached, RedoneIsCurrent, GreatestTellsNext, KeptIsDurable};

/// The ranges of an entry, put over a page, give what the machine's ranges give.
pub fn ranges_are_put()
    ensures { RangesArePut }
{}

/// Redo of a page over the logs of some nodes is a way of the machine's redo over these logs, to its end.
pub fn redone_is_reached()
    ensures { RedoneIsReached }
{}

/// Redo of a page over all logs is a way of the machine's redo, to its end.
pub fn redo_is_reached()
    ensures { RedoIsReached }
{}

/// Where the machine's redo ends nowhere but at the current page, redo gives the current page.
pub fn redone_is_current()
    ensures { RedoneIsCurrent }
{}

/// Where no log is further than the version behind one, the greatest version in some logs is above that
/// one exactly where one of these logs has the version behind it.
pub fn greatest_tells_next()
    ensures { GreatestTellsNext }
{}

/// The storage is durable where each page has a state of the machine with its storage, whose redo ends
/// at its current page, and whose current page is that of *now*.
pub fn kept_is_durable()
    ensures { KeptIsDurable }
{}
