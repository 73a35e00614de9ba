#![tactic(auto)]

//! The rules of a whole cluster: definitions alone, and rows that the checker computes.

mod cluster_rows;
