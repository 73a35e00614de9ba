#![tactic(auto)]

//! The open transactions of a node: what each holds, and the access for which it waits.
//!
//! Contracts see them as a list by serial; a transaction is found by its serial without a scan.

mod open;
mod slots;
mod table;
#[cfg(test)]
mod tests;

pub use pcl_base::{Ended, Held, Kind, Pending};
pub use table::{BeginFault, TxTable};
