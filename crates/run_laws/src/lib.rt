#![tactic(auto)]

//! Laws of the definitions of a run, for proofs that a machine's runs are right: what one moment
//! more adds to a script, and what a script whose reads are current leaves.

mod laws;
