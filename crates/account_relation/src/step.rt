//! Steps that keep the account of their cluster: each message of the trace has its cause.
//!
//! `account_relation` says what the ledger of a trace has of its cluster. Here stands which steps find the causes of
//! what they send there. Each law is the clause of a function that does nothing.

mod accounts;
mod quiet;
mod sends;

pub use accounts::{
    accounts_are_accounted, opening_has_account, runs_are_accounted, steps_without_locks,
};
pub use quiet::{lockless_keep_accounts, lockless_send_none};
pub use sends::steps_send;
