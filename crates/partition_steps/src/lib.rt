#![tactic(auto)]

//! What was planned for a partition, carried out with memory that was taken before: what the home has of it
//! is turned over, redo's pages are written, its table is put, and decisions and the report are told.

mod carrying;
mod dues;
mod finish;
mod laws;
mod memory;
mod needs;
mod redo;
#[cfg(test)]
mod tests;
mod turn;

pub use carrying::carry;
pub use laws::{plans_stay, writes_rise};
pub use memory::{Memory, take_memory};
pub use needs::{Needs, needs_of, needs_of_all};
