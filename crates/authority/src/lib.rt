#![tactic(auto)]

//! What a lock authority decides: requests, releases and returned rights at the owner of a page.
//!
//! Each call plans on a copy of the page's entry and leaves the table as it is; its caller puts the
//! entry in once nothing can be refused any more.

mod laws;
mod outcome;
#[cfg(test)]
mod tests;

pub use laws::{ends_are_planned, requests_are_planned, returns_are_planned, settling_is_planned};
pub use outcome::{Outcome, copy_of, on_release, on_request, on_return, on_settle};
