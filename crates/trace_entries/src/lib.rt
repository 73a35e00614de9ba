#![tactic(auto)]

//! Entries of a trace: events that are copied, entries with one reply or none, and the notes of what a step
//! sends, with memory that is taken before the step.

mod blank;
mod copies;
mod entries;
mod kinds;
mod notes;

pub use copies::copy_event;
pub use entries::{halted, one_reply};
pub use notes::Notes;

#[cfg(test)]
mod tests;
