#![tactic(auto)]

//! A node: the home of its transactions, its view and its lock tables as one value, which contracts see as
//! the node of the rules.

mod arrivals;
mod commits;
mod fresh;
#[cfg(test)]
mod install_tests;
mod installing;
mod node;
mod own;
mod reporting;
mod step;
#[cfg(test)]
mod tests;

pub use node::Node;
