#![tactic(auto)]

//! One region of memory, cut into frames of one size that are taken and must be given back.

mod pool;

pub use pool::{Frame, NoMemory, Pool};

#[cfg(test)]
mod tests;
