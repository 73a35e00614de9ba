#![tactic(auto)]

//! Runs a schedule in a cluster of its own, and writes its trace or the totals of that.

mod added;
mod counter;
mod cuts;
mod ends;
mod reader;
mod run;
mod text;

pub use ends::write_all;
pub use run::replay;

#[cfg(test)]
mod tests;
