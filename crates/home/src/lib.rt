#![tactic(auto)]

//! The home of a node's transactions: their accesses and ends, over the node's buffer and its rights to
//! read pages of others.

mod abort;
mod access;
mod access_now;
mod bring;
mod change;
mod close;
mod commit;
#[cfg(test)]
mod commit_tests;
mod copies;
#[cfg(test)]
mod counter;
#[cfg(test)]
mod end_tests;
mod ending;
mod fault;
mod fetch;
mod finish;
mod force;
mod frames;
mod grant;
mod held;
mod home;
mod kinds;
mod laws;
mod leave;
mod memory;
mod move_list;
mod moves;
mod on_grant;
mod owner;
mod parts;
mod perform;
mod publish;
mod record;
mod revoke;
mod room;
mod runs;
mod steps;
mod stored;
mod told;
mod turns;
mod waiting;
mod written;

pub use access::{Access, Next};
pub use ending::Ending;
pub use fault::HomeFault;
pub use home::Home;
pub use laws::{
    an_armed_stop_decides, calls_join, calls_leave_what_the_rules_say, unstopped_calls_are_done,
};
pub use move_list::MoveList;
pub use tx_table::BeginFault;

#[cfg(test)]
mod access_tests;
#[cfg(test)]
mod grant_tests;
#[cfg(test)]
mod move_tests;
