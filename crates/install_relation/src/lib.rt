#![tactic(auto)]

//! Whole installs of views: what each does to the relation of a cluster and the machine of one page.
//!
//! A node works off its partitions one after the other. Until the partition of a page has its turn the page is seen as if
//! the node still had its old view; what other partitions do isn't seen of it. Each law is the clause of a function that
//! does nothing.

mod installs;
mod turns;
mod unseen;

pub use installs::{install_is_kept, others_are_unseen, own_turn_is_kept};
pub use turns::{getting_first_is_kept, getting_is_kept, tells_as_owner, tells_first, tells_on};
pub use unseen::{entering_is_unseen, taking_elsewhere, telling_elsewhere, unseen_before};
