#![tactic(auto)]

//! What texts and bytes are right: definitions alone, with rows that compute them.

mod bad_line_rows;
mod byte_rows;
mod generator_rows;
mod line_rows;
mod total_rows;
