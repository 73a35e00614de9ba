//! The rules of one node: definitions alone, and rows that the checker computes.
#![tactic(auto)]

mod lock_rows;
mod part_rows;
mod step_rows;
