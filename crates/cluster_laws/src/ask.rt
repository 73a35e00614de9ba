//! Laws of accesses that wait: each is the last one that its transaction asked for.
//!
//! A script gets the bytes of a write from the trace, where its transaction asked for it last
//! (`specs/Asked.antt`). That these are the bytes that the node writes is what is shown here.

mod ask_rows;
mod asks;

pub use ask_rows::row_of_asked;
pub use asks::{opening_waits_as_asked, steps_wait_as_asked};
