#![tactic(auto)]

//! What a trace counts, and whether each of its messages has its cause.

mod account;
mod causes;
mod changes;
mod hearing;
mod holding;
mod installs;
mod ledger;
mod links;
mod once;
mod pairs;
mod print;
mod replies;
mod rights;
mod seen;
mod sends;
mod taking;
mod tally;
mod views;
mod wants;

pub use account::accounted;
pub use tally::Tally;

#[cfg(test)]
mod tests;
