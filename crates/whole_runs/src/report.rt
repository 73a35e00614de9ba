//! Reports keep the pages of a cluster of a run, and no page differs in them.
//!
//! What a cluster has of eras, lives, births and reports beside the relation of its pages is what a table that is being
//! rebuilt needs: nobody who waits there is ahead of a report, and where the last one is taken the machine of one page
//! comes to a state in which the table has all of its era. Each law is the clause of a function that does nothing.

mod reports;

pub use reports::{no_report_differs, reports_keep, reports_may_be_taken, tables_are_known};
