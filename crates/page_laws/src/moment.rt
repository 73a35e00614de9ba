//! What a trace tells, moment by moment: the granted accesses of each transaction by page, the access that it
//! asked for last, what the commit points have made, and whether accesses are fresh and commits serial.
//!
//! A step of a cluster adds one entry. Its laws are stated for an entry in the making, reply by reply, so that
//! a proof may follow a step through its parts. Each law is the clause of a function that does nothing.

mod adds;
mod commit;
mod machine;
mod rows;
mod tells;

pub use adds::{event_adds, halt_adds, refused_adds_nothing, reply_adds, sent_adds_nothing};
pub use commit::{
    commit_runs, now_begins, now_has_all_pages, now_has_pages, now_is_serial, pages_are_now,
    writes_are_left,
};
pub use machine::{commits_are_committing, reads_are_reading, writes_are_writing};
pub use rows::{row_of_accesses, row_of_now};
pub use tells::{ask_tells, commit_tells, empty_tells, nothing_tells, read_tells, write_tells};
