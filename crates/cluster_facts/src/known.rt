//! Births that each node knows of all who have used a partition.
//!
//! Who has accessed a page, has a right to read it, or answered a revocation of one was born in an epoch whose era of the
//! page's partition each node that is up has reached. The owner that serves has reached that epoch itself, and a table
//! that is rebuilt is of a later era. A new lock is of a table that serves, or under a right, and a right comes by a grant
//! alone; so what is known of a related cluster stays known through every step. Each law is the clause of a function that
//! does nothing.

mod accesses;
mod births;
mod gains;

pub use accesses::new_accesses_are_held;
pub use births::{
    granted_are_known, known_stays, opening_has_known_births, served_are_known,
    steps_have_known_births,
};
pub use gains::steps_gain;
