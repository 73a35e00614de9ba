//! What holds between two events: the kinds of steps that are whole, and what is left of the others.
//!
//! `related_runs` asks that a step of each kind leaves the pages of a cluster related to states that may stand between two
//! events: the owner's dirty copy isn't newer than its entry, and who holds a page exclusively has written it. Here both are
//! facts of the cluster's nodes and trace alone, which every step keeps; and so all kinds of steps are shown but for those that
//! a node makes whole, which are left one event at a time (`specs/Events.antt`). Each law is the clause of a function that
//! does nothing.

mod kinds;
mod parts;

pub use kinds::{
    events_are_all, events_keep_pages, halted_pages_are_left, lost_kinds_are_left,
    pages_are_between, quiet_kinds_are_left,
};
pub use parts::{
    entered_is_seen, opening_has_writes, runs_have_writes, seen_is_entered, steps_have_writes,
    writes_are_wrote,
};
