//! Grants that arrive, each law as the clause of an empty function.

ghost use Rattle.settle_relation.specs.Grant.Arriving.{GrantIsKept, GrantGoesOn};

/// A grant that is taken keeps the relation: its right comes to the shelf, and its transaction gets the page where it
/// waits for it.
pub fn grant_is_kept()
    ensures { GrantIsKept }
{}

/// The page that is read for a grant that is taken doesn't differ.
pub fn grant_goes_on()
    ensures { GrantGoesOn }
{}
