#![tactic(auto)]

//! What is due to the input of `replay` and of `summary`: definitions, laws over them, and worked
//! inputs that the checker computes.

mod bad_inputs;
mod failures;
mod laws;
mod limit_rows;
mod moves;
mod paths;
mod rights;
mod summaries;
