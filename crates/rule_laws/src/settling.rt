//! Laws of settling a lock entry.

ghost use Rattle.rule_laws.specs.Settling.{SettlingSettles, GrantsWaited, GrantsOnce, OthersWaitOn, RevokesAll};

/// After settling nobody waits, or the candidate may not be granted: a shared one because another transaction
/// holds the page exclusively; an exclusive one because another holds it or rights stand, and then each
/// right is revoked.
pub fn settling_settles()
    ensures { SettlingSettles }
{}

/// Settling grants only requests that waited, each with the mode and the copy that it waited with.
pub fn grants_waited()
    ensures { GrantsWaited }
{}

/// Settling grants a transaction at most once, and not at all unless it waited.
pub fn grants_once()
    ensures { GrantsOnce }
{}

/// After settling those wait, in their order, that waited and were not granted.
pub fn others_wait_on()
    ensures { OthersWaitOn }
{}

/// Settling revokes no right, or exactly those that stood unrevoked in the entry, in their order.
pub fn revokes_all()
    ensures { RevokesAll }
{}
