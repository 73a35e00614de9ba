#![tactic(auto)]

//! What a node does for its own transactions: it begins, accesses, commits and aborts them, and writes
//! copies of its buffer.

mod access_other;
mod accesses;
mod commits;
mod copies;
mod ends;
mod halt;
mod held;
mod looks;
mod open;
mod page_end;
mod planned;
mod planning;
mod ready;
mod rooms;
mod tell_all;
mod telling;
#[cfg(test)]
mod tests;

pub use accesses::access;
pub use commits::commit;
pub use copies::{evict, flush};
pub use ends::abort;
pub use open::begin;
