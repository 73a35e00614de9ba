#![tactic(auto)]

//! One page's lock entry: its version, the transactions that hold the page, the nodes that have
//! the right to read it, and the transactions that wait, under the lock rule.
//!
//! Each call is the definition of its name in the lock rule's definitions. What may want memory
//! takes it first, so an entry is as it was after [`NoMemory`](pcl_base::NoMemory).

mod entry;
mod find;
mod members;
mod settle;
#[cfg(test)]
mod tests;

pub use entry::Entry;
pub use pcl_base::{Decision, Holder, RightMark, Waiter};
