//! Nodes that a view doesn't list, each law as the clause of an empty function.

ghost use Rattle.kept_relation.specs.Gone.{GoneAreClosed, DownHaveNoShelf};
ghost use Rattle.kept_relation.specs.Known.{KnownIsClear};
ghost use Rattle.kept_relation.specs.Sparing.{ComingIsSpared, ComingIsSparedEarly};

/// Transactions of a node that a view doesn't list are closed where they were born by then.
pub fn gone_are_closed()
    ensures { GoneAreClosed }
{}

/// A node that is down has no right on its shelf.
pub fn down_have_no_shelf()
    ensures { DownHaveNoShelf }
{}

/// Nothing that comes and counts for a partition that a node keeps speaks of transactions of nodes that its view doesn't list.
pub fn coming_is_spared()
    ensures { ComingIsSpared }
{}

/// Nor does anything that comes for one whose table it still rebuilds.
pub fn coming_is_spared_early()
    ensures { ComingIsSparedEarly }
{}

/// A partition is clear of the nodes that a view drops, where it is known whom its table and later eras list.
pub fn known_is_clear()
    ensures { KnownIsClear }
{}
