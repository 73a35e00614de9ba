#![tactic(auto)]

//! The database as one copy, and scripts that are run on it.
//!
//! A [`Base`] is what committed transactions have made of the database. [`Base::apply`] runs the
//! script of one transaction on it, and [`judge_serial`] runs scripts one after the other from the
//! first base: so a run is judged against transactions that run alone, in commit order.

mod base;
mod cell;
mod fault;
mod serial;
mod work;

pub use base::Base;
pub use fault::{ApplyFault, SerialFault};
pub use pcl_base::{Script, Step};
pub use serial::judge_serial;

#[cfg(test)]
mod tests;
