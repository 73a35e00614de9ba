#![tactic(auto)]

//! Looks at the parts of a node: why it refuses an event, what it has, and how much a step on an event
//! gives at most.

mod bound;
mod looks;
mod refusals;
#[cfg(test)]
mod tests;

pub use bound::most;
pub use looks::{HoldItem, WaitItem, holding, txs, waiting};
pub use refusals::refusal;
