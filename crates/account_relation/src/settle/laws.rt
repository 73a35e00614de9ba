//! The laws, as the clauses of empty functions.

ghost use Rattle.account_relation.specs.Settle.Settling.{GrantsFindItems, RevocationsFindRights, AWriterWaits};

/// Where all that wait for a page from other nodes have their items, each grant of a settling to another node finds its
/// own, and those that wait on have theirs still.
pub fn grants_find_items()
    ensures { GrantsFindItems }
{}

/// Where each right of an entry that isn't revoked is out, each revocation of a settling finds its own, and the rights
/// that stay, or are given, are out.
pub fn revocations_find_rights()
    ensures { RevocationsFindRights }
{}

/// Where a settling asks a right back, a transaction that wants to write waits on.
pub fn a_writer_waits()
    ensures { AWriterWaits }
{}
