#![tactic(auto)]

//! What an install does with partitions, one by one.
//!
//! What the purge of a table that the node keeps makes of the relation of a cluster and the machine of one page, and the
//! redo before it; in `turn`, a node that comes into its next view: partitions that go on, are told to their new owner, or
//! are got. Each law is the clause of a function that does nothing.

mod clearing;
mod emptying;
mod gone;
mod purging;
mod redoing;
mod turn;

pub use clearing::clear_stays;
pub use emptying::{emptying_early_is_run, emptying_is_run};
pub use gone::{
    coming_is_spared, coming_is_spared_early, down_have_no_shelf, gone_are_closed, known_is_clear,
};
pub use purging::{
    purging_early_is_related, purging_early_leads, purging_is_related, purging_leads,
};
pub use redoing::{redo_agrees, redo_keeps};
pub use turn::{
    join_is_kept, new_table_is_rebuilt, report_is_listed, tell_is_kept, telling_first_is_kept,
    telling_owner_is_kept, turning_is_step, view_is_kept,
};
