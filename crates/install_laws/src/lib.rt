#![tactic(auto)]

//! Laws of planned installs, over the definition of a node's step alone: what an install does with each
//! partition can be planned before any of it is done. Each law is the clause of a function that does
//! nothing.

mod laws;

pub use laws::{
    an_install_is_worked, entries_settle_alone, install_is_planned, partition_is_planned,
    plans_are_apart, plans_come_first, report_is_planned, settling_is_planned, step_is_planned,
    writes_are_newer,
};
