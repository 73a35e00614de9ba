//! What is stored of a page, over the definitions alone: the page on disk, and the records of its versions in
//! the logs, as the machine of one page has them (`specs/Looks.antt`).
//!
//! The laws say what each call of a node changes of it, and what a stopped call leaves; that redo of the rules
//! is the machine's, so that it gives the current page; and which steps of the machine the calls are. Each law
//! is the clause of a function that does nothing.

mod machine;
mod redone;
mod rows;
mod stored;

pub use machine::{
    commits_are_forced, current_is_redone, current_stands, cuts_are_cutting, greatest_tells_entry,
    pages_are_written, records_are_old,
};
pub use redone::{
    greatest_tells_next, kept_is_durable, ranges_are_put, redo_is_reached, redone_is_current,
    redone_is_reached,
};
pub use rows::{row_of_changed_logs, row_of_rising, row_of_stored_pages};
pub use stored::{
    cut_is_found, cut_takes_old, forced_elsewhere, forced_is_logged, fresh_is_stored,
    other_logs_stay, stopped_leaves, stops_leave, stored_is_read, torn_is_not_logged,
    trimmed_is_stored, whole_is_its_length, whole_stays, written_elsewhere, written_is_stored,
};
