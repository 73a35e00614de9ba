#![tactic(auto)]

//! The frames of one node as bytes (docs/formats.md, frames of node): those that it reads, with each
//! bad frame's place and reason, and those that it writes.

mod fault;
mod fields;
mod frame;
mod laws;
mod reading;
mod sink;
mod source;
mod view;
mod writing;

pub use fault::{FieldFault, FrameFault, FrameReason, InputFault};
pub use frame::Frame;
pub use laws::frames_are_read_again;
pub use pcl_base::{Event, Message};
pub use reading::decode;
pub use sink::write_frame;
pub use source::{has_more, read_frame};
pub use writing::{
    encode_bad, encode_differs, encode_halt, encode_long, encode_replies, encode_send,
};

#[cfg(test)]
mod tests;
