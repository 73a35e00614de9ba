#![tactic(auto)]

//! The text of a trace (docs/formats.md, trace text): its header, its entries and their replies,
//! and its last line.
//!
//! Each printer builds its text in one buffer. Every line ends with a newline.

mod ends;
mod entry;
mod list;
mod note;
mod reply;
mod words;

pub use ends::{print_end, print_header};
pub use entry::print_entry;
pub use reply::print_reply;

#[cfg(test)]
mod tests;
