//! Laws of grants, rights and revocations at a home.

ghost use Rattle.page_laws.specs.Look.Grants.{BringingIsSeen, BringingGoes, GrantIsSeen, ArrivalIsSeen, ShelvesAreSeen, SpendingIsSeen, RevokingIsSeen};

/// A page with a slot that comes to a granted version has a copy of it: the one that it had, or a clean one from
/// the image or from disk; nothing else changes. It comes where the copy is there, or one can be brought.
pub fn bringing_is_seen()
    ensures seen { BringingIsSeen }
    ensures goes { BringingGoes }
{}

/// A grant is carried out by bringing the page, giving the transaction its lock, and doing its access.
pub fn grant_is_seen()
    ensures { GrantIsSeen }
{}

/// A grant that arrives is carried out where its transaction waits for it; else its right is accepted, and nothing
/// else changes.
pub fn arrival_is_seen()
    ensures { ArrivalIsSeen }
{}

/// A right is accepted where none of its page is there, and its readers end one by one; the rights of other pages
/// stay.
pub fn shelves_are_seen()
    ensures { ShelvesAreSeen }
{}

/// A right that is spent is gone, and just the locks of its readers on its page have another kind.
pub fn spending_is_seen()
    ensures { SpendingIsSeen }
{}

/// A revocation is answered with the readers of the right, which is spent; without a right it does nothing.
pub fn revoking_is_seen()
    ensures { RevokingIsSeen }
{}
