#![tactic(auto)]

//! Laws of how much one step of a node gives, over the definition of a step alone. Each law is the
//! clause of a function that does nothing.

mod laws;

pub use laws::{
    items_at_most, listed_at_most, readers_are_few, readers_are_needed, replies_at_most,
    sends_at_most, together_at_most, together_is_reached,
};
