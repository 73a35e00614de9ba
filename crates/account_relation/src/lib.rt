#![tactic(auto)]

//! The ledger of a trace, and the cluster that made it.
//!
//! The account keeps a ledger along a trace: who is up, what stands on the links, which views were made, and what
//! each node was asked and gave. Here stands what the ledger has of the cluster; what settling does against the account
//! (`settle`), what messages make of an entry's items (`entry`), the causes of grants and revocations (`grant`), and whole
//! steps that send no locks (`step`). Each law is the clause of a function that does nothing.

mod entry;
mod grant;
mod ledgers;
mod replies;
mod seen;
mod settle;
mod step;
mod world;

pub use entry::{
    asking_is_wanted, ending_is_wanted, purging_is_out, purging_is_wanted, reporting_is_out,
    returning_is_out,
};
pub use grant::{decisions_have_causes, owners_get_no_rights, settles_send};
pub use ledgers::{ledgers_account, ledgers_are_one, ledgers_go_on};
pub use replies::steps_answer;
pub use seen::{opening_is_seen, steps_keep_seen};
pub use settle::{a_writer_waits, grants_find_items, revocations_find_rights};
pub use step::{
    accounts_are_accounted, lockless_keep_accounts, lockless_send_none, opening_has_account,
    runs_are_accounted, steps_send, steps_without_locks,
};
pub use world::{opening_is_world, steps_keep_world};
