#![tactic(auto)]

//! Who is live and who owns each partition: views, how one follows another, and what becomes of a
//! message at a receiver with a view.

mod view;

pub use pcl_base::Verdict;
pub use view::{View, ViewFault};

#[cfg(test)]
mod tests;
