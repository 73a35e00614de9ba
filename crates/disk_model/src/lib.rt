#![tactic(auto)]

//! The shared disk: stored pages and a log for each node, behind the trait [`Storage`], and
//! [`MemStorage`], which keeps them in memory and fails at stated calls.

mod ahead;
mod counts;
mod logs;
mod memory;
mod pieces;
mod stop;
mod storage;

pub use memory::MemStorage;
pub use pcl_base::Call;
pub use stop::Stop;
pub use storage::Storage;
