//! The turn of one partition at an install: what it does to the relation of a cluster and the machine of one page.
//!
//! Until the partition of a page is worked off, the page is seen as if the node still had its old view. Each law is the
//! clause of a function that does nothing.

mod views;

pub use views::{
    join_is_kept, new_table_is_rebuilt, report_is_listed, tell_is_kept, telling_first_is_kept,
    telling_owner_is_kept, turning_is_step, view_is_kept,
};
