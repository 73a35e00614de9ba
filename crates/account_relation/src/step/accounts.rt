//! Laws of accounts.

ghost use Rattle.account_relation.specs.Step.Accounts.{OpeningHasAccount, AccountsAreAccounted, StepsWithoutLocks, RunsAreAccounted};

/// The opening cluster has its account.
pub fn opening_has_account()
    ensures { OpeningHasAccount }
{}

/// The trace of a cluster with an account is accounted for.
pub fn accounts_are_accounted()
    ensures { AccountsAreAccounted }
{}

/// A step on any event that sends no grant, no release and no revocation keeps the account, where no page that it
/// reads differs: its requests, answers and reports have their causes.
pub fn steps_without_locks()
    ensures { StepsWithoutLocks }
{}

/// Where all steps keep the account, every cluster of a run is accounted for.
pub fn runs_are_accounted()
    ensures { RunsAreAccounted }
{}
