#![tactic(auto)]

//! A storage over a folder of files: one file of stored pages and one log for each node.

mod counts;
mod files;
mod store;
#[cfg(test)]
mod tests;

pub use store::FileStore;
