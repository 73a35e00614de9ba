//! Laws of what is seen of a home, over the rules of a home alone: which transaction holds a page and how, who
//! waits for what, the copies, the private copies and the rights, after each change.
//!
//! Each law is the clause of a function that does nothing.

mod accesses;
mod buffers;
mod ends;
mod grants;
mod rows;

pub use accesses::{
    access_is_seen, locking_is_seen, reading_is_seen, reading_under_is_seen, waiting_is_seen,
    writing_is_seen,
};
pub use buffers::{cleaning_is_seen, frames_are_seen, leaving_is_seen, writing_back_is_seen};
pub use ends::{
    abort_is_seen, change_is_seen, commit_is_seen, giving_up_is_seen, taking_over_is_seen,
};
pub use grants::{
    arrival_is_seen, bringing_is_seen, grant_is_seen, revoking_is_seen, shelves_are_seen,
    spending_is_seen,
};
pub use rows::row_of_a_home;
