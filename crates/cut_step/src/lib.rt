#![tactic(auto)]

//! What a node does with its own log: it cuts what the stored pages have from its front.

mod front;
#[cfg(test)]
mod tests;

pub use front::cut;
