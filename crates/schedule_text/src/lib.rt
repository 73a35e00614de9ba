#![tactic(auto)]

//! The lines of a schedule, both ways: the header and the events of docs/formats.md.

mod bytes;
mod events;
mod fault;
mod fields;
mod forms;
mod line;
mod printing;
mod reaches;
mod search;
mod views;

pub use fault::{LineFault, LineReason};
pub use line::{read_header, read_line};
pub use pcl_base::{Event, Header};
pub use printing::print_event;

#[cfg(test)]
mod tests;
