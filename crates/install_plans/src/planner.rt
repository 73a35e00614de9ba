use pcl_base::{Config, NodeNo};
use std::alloc::Global;

/// Who plans: a node of a configuration.
#[derive(Clone, Copy)]
pub struct Planner {
    /// The memory.
    pub alloc: Global,
    /// The configuration.
    pub config: Config,
    /// The node.
    pub me: NodeNo,
}
