//! Stops in every step, those that may redo pages among them.
//!
//! An install and a report that completes a table have a node redo pages: each is written at most once, at its current
//! version, and where no other node serves it. So every step writes only versions of pages, and a stop in it keeps the pages
//! related. Each law is the clause of a function that does nothing.

mod halts;

pub use halts::{
    all_halts_are_related, all_stops_are_related, all_stops_leave_pages, all_write_versions,
    installs_write_versions, reports_write_versions,
};
