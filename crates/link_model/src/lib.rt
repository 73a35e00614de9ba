#![tactic(auto)]

//! Links between nodes: for each ordered pair the messages on their way, first in, first out.

mod link;
mod links;
mod row;

pub use links::{EmptyLink, Links};

#[cfg(test)]
mod tests;
