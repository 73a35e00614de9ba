//! Whole steps of a node keep the relation of a cluster of a run and the machine of one page, on each event but an
//! install and a report that arrives.
//!
//! Each family of events is shown in a crate of its own; here all premises of theirs are met from what holds of a
//! cluster of a run: what settling keeps, what an end at an own table keeps, and what is needed of scripts. Each law is
//! the clause of a function that does nothing.

mod acted;
mod leaving;

pub use acted::{acted_is_kept, no_act_differs, untaken_act_is_kept};
pub use leaving::{acts_leave_pages, all_acts_keep};
