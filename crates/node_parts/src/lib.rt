#![tactic(auto)]

//! The parts of a node and of a step: what a node is asked, what it answers and sends, the memory that a
//! step takes first, and the node's home, view and lock tables.

mod event;
mod fault;
mod listed;
mod outputs;
mod parts;
mod stock;
mod tables;
#[cfg(test)]
mod tests;

pub use event::NodeEvent;
pub use fault::StepFault;
pub use outputs::{Outgoing, Outputs};
pub use parts::Parts;
pub use stock::Stock;
pub use tables::Tables;
