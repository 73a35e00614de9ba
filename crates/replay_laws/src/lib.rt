#![tactic(auto)]

//! What holds of every input of `replay` and of `summary`.

mod laws;
