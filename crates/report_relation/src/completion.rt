//! A partition that is completed, and the last report, keep the relation of a cluster and the machine of one page.
//!
//! Where the table of a partition misses no report, its pages are redone, it is served, and all its pages are settled:
//! of a page of the partition the machine restores it, completes the era and goes on by grants; of another page nothing
//! is seen. So the whole event of a report keeps the relation, and no page differs that is read for it. What the relation
//! doesn't tell is taken: that the machine comes to a state in which the table has all of its era. Each law is the clause
//! of a function that does nothing.

mod completing;
mod reporting;

pub use completing::{
    complete_agrees, complete_is_beside, complete_keeps, redo_keeps_whole, redo_looks_same,
};
pub use reporting::{no_report_differs, report_is_kept};
