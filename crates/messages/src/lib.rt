#![tactic(auto)]

//! Messages between nodes as bytes, both ways.
//!
//! Numbers are unsigned and big-endian. A message has one spelling, so reading what was written
//! gives it back, and writing what was read gives the bytes back (docs/formats.md, messages).

mod body;
mod fault;
mod fields;
mod laws;
mod list;
mod partitions;
mod reading;
mod writing;

pub use fault::DecodeFault;
pub use laws::written_is_read_again;
pub use partitions::partition;
pub use pcl_base::{
    Body, Change, CopyKind, CopyPart, Grant, Message, Release, Report, ReportLock, ReportRight,
    ReportWait, Request, ReturnRight,
};
pub use reading::decode;
pub use writing::encode;

#[cfg(test)]
mod tests;
