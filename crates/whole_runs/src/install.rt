//! What is known of a whole install beside the relation of its pages.
//!
//! A node that installs a view works off its partitions, and the page's own one has its turn. What that needs beside the
//! relation follows from what is known of every cluster of a run. Each law is the clause of a function that does nothing.

mod installs;
mod stays;
mod turns;

pub use installs::{installs_act_on, installs_are_known, no_install_differs};
pub use stays::{lost_is_midway, purge_is_midway};
pub use turns::{
    kept_goes_on, taken_can_be_whole, taken_is_completed, taken_may_complete, turns_are_kept,
    turns_are_purged, turns_are_used, unviewed_are_quiet, waiters_are_heard,
};
