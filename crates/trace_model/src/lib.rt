#![tactic(auto)]

//! What a run has given, entry by entry, and what it tells of transactions: the granted accesses
//! of each, and the order of their commit points.

mod entry;
mod trace;

pub use pcl_base::{Call, CopyKind, Entry, Halt, Note, Script, Sent, Step};
pub use trace::Trace;

#[cfg(test)]
mod tests;
