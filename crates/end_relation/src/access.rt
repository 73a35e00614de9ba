//! The relation through an access: a read or a write of a node's transaction, from the cluster before it to the one
//! after it.
//!
//! An access takes its frames. Then it is done at once, under its own lock or under the right of the node; or it waits,
//! and is asked for: by a request to the owner, or in the entry of an own page, which is settled. What settling does is
//! a premise here. Each law is the clause of a function that does nothing.

mod events;
mod steps;

pub use events::{read_goes, read_is_kept, write_goes, write_is_kept};
pub use steps::{
    altered_is_related, asking_is_entered, reading_is_step, reading_under_is_step, waiting_is_step,
    waiting_is_told_first, writing_is_step,
};
