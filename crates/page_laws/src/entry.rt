//! Laws of lock entries and lock tables, over the lock rule alone: what each change makes of the looks at an
//! entry (who holds the page in which mode, which nodes have the right, who waits), which decisions settling
//! makes one by one, and which step of the machine of one page each of them is.
//!
//! Each law is the clause of a function that does nothing.

mod looks;
mod rows;
mod settling;
mod steps;
mod tables;

pub use looks::{
    asking_is_seen, ending_is_seen, purging_is_seen, reporting_is_seen, returning_is_seen,
};
pub use rows::{row_of_decisions, row_of_looks};
pub use settling::{
    decisions_are_seen, settling_decides, settling_keeps_its_version, writers_wait_for_nothing,
};
pub use steps::{decisions_are_steps, releases_are_steps, returns_are_steps};
pub use tables::{gathering_is_seen, new_tables_are_idle, tables_are_seen};
