#![tactic(auto)]

//! What holds of every cluster of a run beside the relation of its pages.
//!
//! These are the facts of nodes, tables and links that an install and a report need, and that the relation with the
//! machine of one page doesn't tell: that who waits has reached the table's era (`waiting`), that tables name living nodes
//! alone (`table`), when reports are on their way (`reports`), and that nodes know the births of those who accessed a page
//! (`known`). Each law is the clause of a function that does nothing.

mod facts;
mod known;
mod reports;
mod table;
mod waiting;

pub use facts::{opening_has_facts, steps_have_facts};
pub use known::{
    granted_are_known, known_stays, new_accesses_are_held, opening_has_known_births,
    served_are_known, steps_gain, steps_have_known_births,
};
pub use reports::{
    opening_has_marked, opening_has_no_rights, opening_has_reports, pages_are_marked,
    reports_are_awaited, reports_are_once, steps_keep_marked, steps_keep_reports,
    steps_keep_unviewed, unviewed_have_no_right,
};
pub use table::{
    gathered_are_living, holders_are_living, listed_are_living, opening_has_table_lives,
    rights_are_living, steps_have_table_lives,
};
pub use waiting::{opening_has_reached, steps_keep_reached, waiters_have_reached};
