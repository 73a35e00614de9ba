#![tactic(auto)]

//! What holds of every node in a run, and that what a step sends are messages of the grammar. Each law is
//! the clause of a function that does nothing.

mod laws;
mod rows;

pub use laws::{
    calls_fit, calls_keep_disk, first_is_sound, fresh_fits, open_are_txs, sends_are_messages,
    sends_have_epoch, sound_has_few_readers, start_is_sound, steps_keep_numbers, steps_keep_sound,
    stops_keep_disk,
};
pub use rows::{row_of_calls, row_of_rights, row_of_tables, row_of_views};
