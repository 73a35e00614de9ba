//! What is dead and gone before a partition is purged or completed.
//!
//! What is proved here is what eras lose of transactions that are no more, beside the relation of a cluster and the machine of
//! one page, and what a table has of its era then. Each law is the clause of a function that does nothing.

mod burying;
mod gathered;
mod installed;
mod joining;
mod kept;
mod past;
mod running;
mod whole;

pub use burying::{burying_is_related, lowering_is_related};
pub use gathered::{gathered_is_known, gathered_is_whole, nobody_is_ahead_of_it};
pub use installed::{installed_is_awaited, installed_is_kept, new_is_known};
pub use joining::{births_are_before_new_eras, waiters_are_known};
pub use kept::{kept_is_clear, kept_is_clear_early, purged_are_living, purged_is_known};
pub use past::{past_are_closed, past_may_be_buried};
pub use running::{burial_is_run, lowering_is_run, rights_are_bounded};
pub use whole::{known_is_whole, nobody_is_ahead};
