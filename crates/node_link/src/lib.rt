#![tactic(auto)]

//! One node over frames: it reads frames from a source, makes a step for each on the storage handed in, and
//! writes its replies and messages to a sink (docs/formats.md, frames of node).

mod serving;
#[cfg(test)]
mod tests;
mod turns;
mod works;

pub use serving::serve;
