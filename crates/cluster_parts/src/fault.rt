ghost use Rattle.std.specs.Prelude.{◌≡◌};

use pcl_base::{NoMemory, PageNo};
use std::alloc::{AllocError, AllocFailed};

/// Why a cluster made no step. `NoMemory` leaves all as before; after `Differs` nothing is said of the cluster
/// but that it is one, and it should only be closed.
#[derive(Clone, Copy, Debug, PartialEq, Eq)]
pub enum ClusterFault {
    /// Want of memory.
    NoMemory,
    /// A page was read with another number or version than it must have. This comes only where the step of
    /// the rules reads such a page.
    Differs {
        /// The page.
        page: PageNo,
        /// The number that should stand there.
        expected: u64,
        /// The number that does.
        found: u64,
    },
}

impl From<NoMemory> for ClusterFault {
    ghost use Rattle.cluster_parts.specs.declared.fault.ClusterFault.TheVariants.{NoMemory as no_memory};

    ghost from_gives = { λ _ e. e ≡ no_memory };

    fn from(_fault: NoMemory) -> ClusterFault {
        ClusterFault::NoMemory
    }
}

impl From<AllocError> for ClusterFault {
    ghost use Rattle.cluster_parts.specs.declared.fault.ClusterFault.TheVariants.{NoMemory as no_memory};

    ghost from_gives = { λ _ e. e ≡ no_memory };

    fn from(_fault: AllocError) -> ClusterFault {
        ClusterFault::NoMemory
    }
}

impl<T: Drop> From<AllocFailed<T>> for ClusterFault {
    ghost use Rattle.cluster_parts.specs.declared.fault.ClusterFault.TheVariants.{NoMemory as no_memory};

    ghost from_gives = { λ _ e. e ≡ no_memory };

    fn from(_fault: AllocFailed<T>) -> ClusterFault {
        ClusterFault::NoMemory
    }
}
