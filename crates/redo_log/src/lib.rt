#![tactic(auto)]

//! The redo log: records of committed transactions in both formats, a commit as one force, and
//! what a log says, read whole or by a walk in pieces.

mod apply;
mod entries;
mod fields;
mod force;
mod numbers;
mod parts;
mod reader;
mod reading;
#[cfg(test)]
mod tests;
mod walk;
mod writing;

pub use apply::apply_at;
pub use force::commit;
pub use pcl_base::{ChangedRange, Logged, Part, Ranges, Record, Seen};
pub use reading::{Scanned, scan};
pub use walk::Walk;
pub use writing::encode;
