//! Who waits at a table of an era is of a node that has reached that era.
//!
//! A transaction comes to wait at a table by a request or a report of its home, or at its own node. What comes was sent
//! in the era of the table, and the epoch of a node doesn't fall. Each law is the clause of a function that does nothing.

mod reached;

pub use reached::{opening_has_reached, steps_keep_reached, waiters_have_reached};
