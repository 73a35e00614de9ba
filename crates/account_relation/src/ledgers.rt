//! Laws of ledgers.

ghost use Rattle.account_relation.specs.Ledgers.{LedgersAccount, LedgersGoOn, LedgersAreOne};

/// A trace that leaves a ledger is accounted for: each of its sends has its cause.
pub fn ledgers_account()
    ensures { LedgersAccount }
{}

/// A further entry whose sends have their causes leaves the ledger after it.
pub fn ledgers_go_on()
    ensures { LedgersGoOn }
{}

/// And no other one.
pub fn ledgers_are_one()
    ensures { LedgersAreOne }
{}
