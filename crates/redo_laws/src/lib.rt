#![tactic(auto)]

//! Laws of redo, over its definition alone: what a committed record adds to it, and which changes of
//! the disks change nothing of it. Each law is the clause of a function that does nothing.

mod laws;

pub use laws::{
    appended_elsewhere, appended_is_redone, appended_is_whole, cut_changes_nothing,
    greatest_is_greatest, redo_is_no_older, redone_may_be_written, torn_changes_nothing,
    trim_changes_nothing, trimmed_is_whole, written_changes_nothing,
};
