#![tactic(auto)]

//! Redo of pages by version from the stored page on: what the whole records of all logs make of it.
//!
//! The logs are walked once. Of the listed pages an index is kept; no log is read whole, and all
//! memory is taken before the first write.

mod apply;
mod greatest;
mod index;
mod laws;
mod near;
mod plan;
mod planned;
mod ranges;
mod site;
mod versions;
mod walked;
mod whole;

pub use laws::{newer_are_written, plan_stays};
pub use page_store::RedoFault;
pub use plan::prepare;
pub use planned::Planned;
pub use versions::newest;
pub use whole::redo;

#[cfg(test)]
mod tests;
