#![tactic(auto)]

//! What frames are right, in and out: definitions alone, with rows that compute them.

mod frame_rows;
mod serving_rows;
