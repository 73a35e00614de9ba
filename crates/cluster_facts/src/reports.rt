//! Reports of an era come first, and are awaited where they come to.
//!
//! A node that owes the owner of a partition a report for an era has sent it before all that it asks for in the era, and
//! the report stays on its link until the owner takes it. A table that is being rebuilt marks its own node and those whose
//! reports were taken, and nobody waits there of a node that still owes one. A node that is up in no view has no right.
//! Each law is the clause of a function that does nothing.

mod marked;
mod reported;
mod unviewed;

pub use marked::{opening_has_marked, pages_are_marked, steps_keep_marked};
pub use reported::{
    opening_has_reports, reports_are_awaited, reports_are_once, steps_keep_reports,
};
pub use unviewed::{opening_has_no_rights, steps_keep_unviewed, unviewed_have_no_right};
