#![tactic(auto)]

//! The parts of serving one node over frames, beside the node itself: the next frame, the step that it asks
//! for, the frames that a step gives, and how serving goes on and ends, with the laws of that. A law is what
//! its lemma in proofs/ says.

mod asked;
mod end;
mod frames;
mod limit;
#[cfg(test)]
mod tests;
mod writes;

pub use asked::asked_of;
pub use end::End;
pub use frames::next_frame;
pub use limit::end_at_limit;
pub use writes::{write_last, write_step};
