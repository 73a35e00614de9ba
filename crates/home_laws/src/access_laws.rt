//! The laws of accesses, grants and revocations, each as the clause of an empty function.

ghost use Rattle.home_laws.specs.AccessLaws.{AccessIsSound, GrantedIsSound, OnGrantIsSound, OnRevokeIsSound};

/// An access that isn't refused keeps what holds of every home, whether it is done at once or waits:
/// its page has a slot, pinned once for its transaction, and a write has a private copy.
pub fn access_is_sound()
    ensures { AccessIsSound }
{}

/// A grant of what a transaction waits for, by a lock that isn't under a right, keeps what holds of
/// every home: the slot comes to the granted version, and the access is done under its lock.
pub fn granted_is_sound()
    ensures { GrantedIsSound }
{}

/// A grant that arrives keeps what holds of every home, also where no transaction waits for it: then
/// its right is accepted, and nothing else changes.
pub fn on_grant_is_sound()
    ensures { OnGrantIsSound }
{}

/// A revocation keeps what holds of every home: the right goes, and the locks of its readers are
/// no longer held under it.
pub fn on_revoke_is_sound()
    ensures { OnRevokeIsSound }
{}
