#![tactic(auto)]

//! A cluster: nodes over links, a storage in memory, views, and a trace. Its step is that of the rules.

mod cluster;
mod deliver;
mod events;
mod install;
mod parts;
mod starts;
mod step;
mod views;

pub use cluster::Cluster;
pub use cluster_parts::ClusterFault;

#[cfg(test)]
mod tests;
