#![tactic(auto)]

//! Reports that come to a new owner keep the relation of a cluster and the machine of one page.
//!
//! A table that is being rebuilt has, of each node whose report it marks, what the era lists. A report that is taken puts
//! one node more into it, and the state of the machine stays; once no report is missing the table is redone and served:
//! that completion as one operation, and the whole event, are in `completion`; who is dead and gone for later eras is in
//! `bury`. Each law is the clause of a function that does nothing.

mod bury;
mod completing;
mod completion;
mod gathering;
mod redoing;

pub use bury::{
    births_are_before_new_eras, burial_is_run, burying_is_related, gathered_is_known,
    gathered_is_whole, installed_is_awaited, installed_is_kept, kept_is_clear, kept_is_clear_early,
    known_is_whole, lowering_is_related, lowering_is_run, new_is_known, nobody_is_ahead,
    nobody_is_ahead_of_it, past_are_closed, past_may_be_buried, purged_are_living, purged_is_known,
    rights_are_bounded, waiters_are_known,
};
pub use completing::{
    all_are_settled, completing_is_step, others_have_reached, ready_may_complete, up_have_reached,
};
pub use completion::{
    complete_agrees, complete_is_beside, complete_keeps, no_report_differs, redo_keeps_whole,
    redo_looks_same, report_is_kept,
};
pub use gathering::{gathering_is_related, report_is_gathered};
pub use redoing::{all_are_redone, redo_agrees, redo_is_midway, redo_is_related};
