#![tactic(auto)]

//! Stored pages: a page on disk is its number plus one, its version and its bytes.

mod fault;
mod stored;

pub use fault::{PageFault, RedoFault};
pub use stored::{read, write};
