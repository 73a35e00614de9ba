#![tactic(auto)]

//! Generates schedules: the events of a seed, one after the other.

mod kept;
mod laws;
mod machine;
mod maker;
mod stage;
mod sweeps;
#[cfg(test)]
mod tests;

pub use maker::Maker;
