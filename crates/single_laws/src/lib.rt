#![tactic(auto)]

//! Laws of the runs of one node in which nothing fails and at most one transaction is open at a time,
//! over the definition of a run of the whole cluster. Each law is the clause of a function that does
//! nothing.

mod laws;
mod rows;

pub use laws::{alone_is_accounted, alone_is_fresh, alone_is_safe, alone_is_serial};
pub use rows::{row_of_open_counts, row_of_plain_events, row_of_replies};
