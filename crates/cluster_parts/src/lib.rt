#![tactic(auto)]

//! The parts of a cluster's step beside its nodes: what contracts see of a cluster, which event a node gets,
//! how messages go on links with room for them, and the laws by which a node's step is one of the cluster.

mod asked;
mod fault;
mod laws;
mod sends;

pub use asked::{asked_of, lists_for, stays};
pub use fault::ClusterFault;
pub use laws::{
    coming_keeps_parts, lost_nodes_leave_clusters, made_steps_are_steps, openings_are_parts,
    room_suffices, steps_are_told, stopped_steps_are_steps,
};
pub use sends::{is_up, send_all};

#[cfg(test)]
mod tests;
