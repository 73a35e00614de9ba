//! The turn of a page's partition where its owner is new, each law as the clause of an empty function.

ghost use Rattle.install_relation.specs.Taking.{GettingIsKept, GettingFirstIsKept};
ghost use Rattle.install_relation.specs.Telling.{TellsOn, TellsAsOwner, TellsFirst};

/// A node that was in a view gets the page's partition: its right is turned, and it reports to itself.
pub fn getting_is_kept()
    ensures { GettingIsKept }
{}

/// A node that begins its life gets the page's partition.
pub fn getting_first_is_kept()
    ensures { GettingFirstIsKept }
{}

/// A node that didn't own the page's partition tells the new owner what it has.
pub fn tells_on()
    ensures { TellsOn }
{}

/// The owner of the page's partition tells the new one what it has.
pub fn tells_as_owner()
    ensures { TellsAsOwner }
{}

/// A node that begins its life tells the new owner of the page's partition.
pub fn tells_first()
    ensures { TellsFirst }
{}
