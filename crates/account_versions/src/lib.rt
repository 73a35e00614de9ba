#![tactic(auto)]

//! The versions of the account: the ledger of a trace has for each page the version of now.
//!
//! A ledger counts, at each commit point, the pages of which the transaction has a granted write; now runs the script of the
//! transaction, in which each granted write stands that was asked for. So each granted write is asked for in every cluster of
//! a run (`asked`), a ledger has the granted writes of its trace, and a script the same ones (`written`), and the versions are
//! those of now (`versions`). Each law is the clause of a function that does nothing.

mod asked;
mod versions;
mod written;

pub use asked::{opening_has_asked_writes, runs_have_asked_writes, steps_have_asked_writes};
pub use versions::{
    clusters_have_versions, runs_have_versions, steps_keep_versions, versions_are_now,
};
pub use written::{ledgers_have_writes, scripts_have_writes};
