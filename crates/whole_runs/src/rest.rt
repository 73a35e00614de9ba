//! All steps from a cluster of a run, but for the events that may redo pages.
//!
//! Each step keeps the pages of its cluster related to the machine of one page, where the installs and the reports that
//! are taken there do. And no page differs in any other step.
//! Each law is the clause of a function that does nothing.

mod closing;

pub use closing::{only_redoing_differs, redoing_is_left};
