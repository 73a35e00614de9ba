#![tactic(auto)]

//! The plan of an install, and of a report that arrives: what becomes of each partition, as the rules
//! have it, planned with nothing changed yet.

mod completing;
mod due;
mod gathering;
mod getting;
mod install;
mod keeping;
mod laws;
mod leaving;
mod newer;
mod partition;
mod plan;
mod planner;
mod redo;
mod settling;
#[cfg(test)]
mod tests;

pub use due::Due;
pub use install::{plan_install, plan_report};
pub use laws::{births_change_no_plan, reports_name_their_own};
pub use plan::{Differing, InstallPlan, PartitionPlan, TableAfter, Turnover};
