#![tactic(auto)]

//! Images between the buffer and messages: what a message carries is the copy's bytes.

mod images;

pub use images::{image_in, image_out, private_out};

#[cfg(test)]
mod tests;
