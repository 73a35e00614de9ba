//! What is lost keeps the relation of a cluster and the machine of one page.
//!
//! `page_relation` says when a cluster and a state of the machine of one page say the same. Here stand the laws of
//! events that change nothing of a page, of a node that is lost, and of views and reopenings that start nodes
//! (`specs/Laws.antt`): each leads to a cluster that is related to a state to which the machine goes. Each law is the
//! clause of a function that does nothing.

mod laws;

pub use laws::{
    armed_is_related, crashed_is_related, differing_is_related, halted_is_related,
    ordinary_halts_are_related, quiet_events_keep_related, refused_is_related, reopened_is_related,
    steps_write_versions, viewed_is_related,
};
