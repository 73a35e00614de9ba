#![tactic(auto)]

//! The safety proof of whole runs: in every run of a cluster accesses are fresh, committed transactions are serial, the
//! storage is durable, and no page that a step reads differs from what it must be.
//!
//! Each step leaves the cluster's pages related to the machine of one page, and keeps the facts that this needs: events that
//! a node makes whole (`act`), stops in any step (`halt`), reports (`report`) and installs (`install`), and what is left
//! where those alone are to be shown (`rest`). Each law is the clause of a function that does nothing.

mod act;
mod halt;
mod install;
mod report;
mod rest;
mod runs;

pub use act::{
    acted_is_kept, acts_leave_pages, all_acts_keep, no_act_differs, untaken_act_is_kept,
};
pub use halt::{
    all_halts_are_related, all_stops_are_related, all_stops_leave_pages, all_write_versions,
    installs_write_versions, reports_write_versions,
};
pub use install::{
    installs_act_on, installs_are_known, kept_goes_on, lost_is_midway, no_install_differs,
    purge_is_midway, taken_can_be_whole, taken_is_completed, taken_may_complete, turns_are_kept,
    turns_are_purged, turns_are_used, unviewed_are_quiet, waiters_are_heard,
};
pub use report::{no_report_differs, reports_keep, reports_may_be_taken, tables_are_known};
pub use rest::{only_redoing_differs, redoing_is_left};
pub use runs::{
    ends_are_true, no_step_differs, runs_are_known, runs_are_safe, runs_are_true, steps_go_on,
    steps_keep_pages,
};
