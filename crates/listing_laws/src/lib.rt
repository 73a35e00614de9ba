#![tactic(auto)]

//! How many messages with lists one step of a node sends at most, over the definition of a step alone.
//! Each law is the clause of a function that does nothing.

mod laws;
mod rows;

pub use laws::lists_are_few;
pub use rows::{row_of_counts, row_of_steps};
