#![tactic(auto)]

//! What a step of a node comes to over a storage that tells its pages, its logs and its stops. Each law is
//! the clause of a function that does nothing.

mod laws;
mod rows;

pub use laws::{a_failed_call_halts, made_calls_carry_out, only_a_stop_fails, other_stops_stay};
pub use rows::{row_of_ends, row_of_stops};
