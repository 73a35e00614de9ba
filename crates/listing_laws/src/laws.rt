//! The law, as the clause of an empty function.

ghost use Rattle.listing_laws.specs.Lists.{ListsAreFew};

/// A step sends messages with lists only where it installs a view, a report for each partition at most, or
/// is asked to give a right back, one answer at most.
pub fn lists_are_few()
    ensures { ListsAreFew }
{}
