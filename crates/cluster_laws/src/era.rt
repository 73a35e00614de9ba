//! Eras and lives, and the messages that count.
//!
//! An era of a partition is named by the epoch from which its owner has it, and a life of a node by the epoch
//! of its birth. Here stands what the views of a cluster in a run say of both (`specs/EraLaws.antt`), and what is
//! known of a message that its receiver may still take (`specs/CountLaws.antt`). Each law is the clause of a
//! function that does nothing.

mod counts;
mod era_rows;
mod eras;

pub use counts::{
    counted_before, counted_unborn, counting_is_of_life, counting_is_of_view, counts_stay,
    nothing_counts_at_start, steps_count_less,
};
pub use era_rows::{row_of_counts, row_of_eras};
pub use eras::{
    births_are_reached, births_never_fall, epochs_have_views, eras_are_reached, eras_go_on,
    eras_have_one_owner, eras_never_fall, last_view_is_there, later_epochs, lives_go_on,
    members_know_eras, next_goes_on, no_further_views, owners_are_live, owners_were_born,
    steps_keep_eras, steps_keep_made, up_nodes_live,
};
