//! Installs as wholes, each law as the clause of an empty function.

ghost use Rattle.install_relation.specs.Whole.{OthersAreUnseen, OwnTurnIsKept, InstallIsKept};

/// The turn of another partition isn't seen of a page.
pub fn others_are_unseen()
    ensures { OthersAreUnseen }
{}

/// The turn of the page's own partition leaves the page related, with the new view of the node from then on.
pub fn own_turn_is_kept()
    ensures { OwnTurnIsKept }
{}

/// A whole install leaves the page related.
pub fn install_is_kept()
    ensures { InstallIsKept }
{}
