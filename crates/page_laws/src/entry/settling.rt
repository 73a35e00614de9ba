//! Laws of settling an entry, decision by decision.

ghost use Rattle.page_laws.specs.Entry.Decisions.{SettlingDecides, SettlingKeepsItsVersion, LockedIsSeen, GivenIsSeen, MarkedIsSeen};
ghost use Rattle.page_laws.specs.Entry.Looks.{WritersWaitForNothing};

/// Settling an entry in which no writer waits is making its decisions one after the other, each from an entry at
/// which it may be made: a grant only where no transaction writes, an exclusive one only where no other one
/// holds the page and no node has a right, a right only where nobody else waits to write, and a revocation of
/// the first right that isn't revoked.
pub fn settling_decides()
    ensures { SettlingDecides }
{}

/// Settling leaves the version of an entry.
pub fn settling_keeps_its_version()
    ensures { SettlingKeepsItsVersion }
{}

/// What is seen after one decision: a grant makes its transaction a holder in its mode, or gives its node the
/// right, and it waits no more; a revocation leaves holders, rights and those that wait.
pub fn decisions_are_seen()
    ensures locked { LockedIsSeen }
    ensures given { GivenIsSeen }
    ensures marked { MarkedIsSeen }
{}

/// No writer waits after any change of an entry in which none did.
pub fn writers_wait_for_nothing()
    ensures { WritersWaitForNothing }
{}
