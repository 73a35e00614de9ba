#![tactic(auto)]

//! From related clusters to clusters of runs.
//!
//! `page_relation` says when a cluster and the states of its pages in the machine of one page say the same. Here
//! stands what follows for clusters so related, and what a cluster of a run keeps through a step that leaves its pages
//! related (`IsOfRun`); that who holds a page has accessed it (`locks`); and what holds between two events (`between`). Each
//! law is the clause of a function that does nothing.

mod between;
mod granted;
mod locks;
mod parties;
mod parts;
mod related;
mod runs;

pub use between::{
    entered_is_seen, events_are_all, events_keep_pages, halted_pages_are_left, lost_kinds_are_left,
    opening_has_writes, pages_are_between, quiet_kinds_are_left, runs_have_writes, seen_is_entered,
    steps_have_writes, writes_are_wrote,
};
pub use granted::{grants_stand, steps_keep_serials};
pub use locks::{
    nobody_comes_to_hold, opening_has_used, readers_are_used, steps_have_used, used_is_seen,
    works_are_used,
};
pub use parties::{opening_has_living, steps_keep_parties};
pub use parts::{
    opening_has_serials, opening_has_within, related_keeps_logs, steps_have_asked,
    steps_have_serials, steps_have_within,
};
pub use related::{related_is_durable, related_is_serial, related_stays_fresh};
pub use runs::{kinds_are_all, opening_is_of_run, steps_go_on};
