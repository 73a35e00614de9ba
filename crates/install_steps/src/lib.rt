#![tactic(auto)]

//! What a node does with a view, and with a report that arrives, as whole parts of its step.

mod apt;
mod entering;
mod installing;
mod laws;
mod leaving;
mod planned;
mod ready;
mod report;
#[cfg(test)]
mod tests;
mod torn;
mod working;

pub use installing::install;
pub use laws::installs_make_their_calls;
pub use report::take_report;
