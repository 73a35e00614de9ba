#![tactic(auto)]

//! Laws of the rules, for a reader who wants to know what they give: what settling an entry leaves and
//! decides, that a lock entry stays compatible, what a later view keeps, what becomes of messages at later
//! views, and that no bytes and no line have two meanings.
//!
//! Each law is the clause of a function that does nothing.

mod compatible;
mod settling;
mod texts;
mod views;

pub use compatible::{
    ask_keeps, end_keeps, idle_is_compatible, purge_keeps, return_keeps, settling_keeps,
    writer_is_alone,
};
pub use settling::{grants_once, grants_waited, others_wait_on, revokes_all, settling_settles};
pub use texts::{lines_differ, no_record_is_front, records_differ};
pub use views::{
    dropped_stays, first_is_whole, held_is_ahead, never_falls, next_moves, taken_is_between,
    whole_stays,
};
