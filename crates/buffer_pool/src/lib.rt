#![tactic(auto)]

//! The buffer of a node: slots of pages by last use, and the private copies of writing transactions.
//!
//! All images lie in one region of frames. No call but `open` takes memory. A slot or a private copy
//! is found without a scan; what is used moves to the front without a walk.

mod images;
mod order;
mod pool;
mod reads;
mod table;
mod uses;

pub use pool::BufferPool;

#[cfg(test)]
mod tests;
