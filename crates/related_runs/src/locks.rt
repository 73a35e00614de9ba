//! Who holds a page has accessed it.
//!
//! A transaction comes to hold a page by a grant or by a read under its node's right, and the reply that tells its access is one of
//! the same step. So between two events the trace has an access for each lock that an open transaction has. This is a fact of
//! the cluster's nodes and its trace alone, which every step keeps; and a state of the machine of one page that is related
//! to the cluster, or to a work that begins there, has it too. Each law is the clause of a function that does nothing.

mod seen;
mod used;

pub use seen::{nobody_comes_to_hold, readers_are_used, used_is_seen, works_are_used};
pub use used::{opening_has_used, steps_have_used};
