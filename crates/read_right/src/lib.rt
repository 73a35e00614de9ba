#![tactic(auto)]

//! The rights of a node to read pages of others by itself, as values that have to be spent.

mod right;
mod shelf;

pub use pcl_base::ReturnRight;
pub use right::ReadRight;
pub use shelf::{Readers, Shelf};

#[cfg(test)]
mod tests;
