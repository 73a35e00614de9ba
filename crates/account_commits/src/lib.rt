#![tactic(auto)]

//! The versions that commits make, in the account of messages.
//!
//! A release of a committed transaction brings the version that the commit made of a page that it wrote. Who holds a page
//! exclusively has the version of now, and the commit raises it by one, as the commit point does in the ledger. Each law is
//! the clause of a function that does nothing.

mod commits;

pub use commits::{commits_have_versions, written_is_done};
