//! Laws of events that send no locks.

ghost use Rattle.account_relation.specs.Step.Quiet.{LocklessSendNone, LocklessKeepAccounts};

/// A node sends no locks on begin, evict, flush and cut, on an access of a page of another node, and as it takes a grant
/// or a revocation.
pub fn lockless_send_none()
    ensures { LocklessSendNone }
{}

/// Such an event keeps the account, where no page that it reads differs; so does one that comes to no node.
pub fn lockless_keep_accounts()
    ensures { LocklessKeepAccounts }
{}
