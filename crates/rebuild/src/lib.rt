#![tactic(auto)]

//! How the lock table of a partition is rebuilt at a new owner: what a node reports of its locks,
//! rights and waiting accesses, how reports are put into the table, what goes with a lost node,
//! and whether a report is still missing.
//!
//! All of it carries the install rule.

mod gathering;
mod purging;
mod reporting;
#[cfg(test)]
mod tests;

pub use gathering::{gather, missing};
pub use purging::purge;
pub use reporting::{own_report, report};
