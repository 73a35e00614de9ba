//! The laws, as the clauses of empty functions.

ghost use Rattle.account_relation.specs.Grant.Decided.{SettlesSend, OwnersGetNoRights, DecisionsHaveCauses};

/// The settling of a page sends a grant for each of its decisions on a transaction of another node, and its revocations,
/// in their order, and nothing else.
pub fn settles_send()
    ensures { SettlesSend }
{}

/// Settling gives no right to transactions of the owner.
pub fn owners_get_no_rights()
    ensures { OwnersGetNoRights }
{}

/// The messages for decisions about a page have their causes, where each grant finds its item and each revocation finds
/// its right (`account_settling`), and the node holds the page's partition; items and rights are used once.
pub fn decisions_have_causes()
    ensures { DecisionsHaveCauses }
{}
