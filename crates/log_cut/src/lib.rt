#![tactic(auto)]

//! How much of a log may be cut from its front: the whole records all of whose pages the disk has
//! at their versions or later ones.

mod cut;
mod laws;
#[cfg(test)]
mod tests;

pub use cut::cuttable;
pub use laws::cut_keeps_redo;
pub use page_store::RedoFault;
