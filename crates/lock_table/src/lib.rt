#![tactic(auto)]

//! The lock table of one partition at its owner: an entry for each page that is in use, the
//! versions of all others, whether the partition is served, and who has reported.
//!
//! A page without an entry counts as one with empty lists at its version. Contracts see the lock
//! table of the rules that this is.

mod table;
#[cfg(test)]
mod tests;

pub use table::Table;
