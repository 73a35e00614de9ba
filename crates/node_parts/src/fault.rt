ghost use Rattle.std.specs.Prelude.{◌≡◌};

use pcl_base::{Call, NoMemory, PageNo, TxId};
use std::alloc::{AllocError, AllocFailed};

/// Why a step ended early. `NoMemory` leaves all as before; after the two others the node may only be
/// lost.
#[derive(Clone, Copy, Debug, PartialEq, Eq)]
pub enum StepFault {
    /// Want of memory.
    NoMemory,
    /// The storage's count of this kind of call rose.
    Halted {
        /// The kind of the call.
        call: Call,
        /// The transaction whose whole record the log has, if there is one.
        kept: Option<TxId>,
    },
    /// A page was read with another number or version than it must have.
    Differs {
        /// The page.
        page: PageNo,
        /// The number that should stand there.
        expected: u64,
        /// The number that does.
        found: u64,
    },
}

impl From<NoMemory> for StepFault {
    ghost use Rattle.node_parts.specs.declared.fault.StepFault.TheVariants.{NoMemory as no_memory};

    ghost from_gives = { λ _ e. e ≡ no_memory };

    fn from(_fault: NoMemory) -> StepFault {
        StepFault::NoMemory
    }
}

impl From<AllocError> for StepFault {
    ghost use Rattle.node_parts.specs.declared.fault.StepFault.TheVariants.{NoMemory as no_memory};

    ghost from_gives = { λ _ e. e ≡ no_memory };

    fn from(_fault: AllocError) -> StepFault {
        StepFault::NoMemory
    }
}

impl<T: Drop> From<AllocFailed<T>> for StepFault {
    ghost use Rattle.node_parts.specs.declared.fault.StepFault.TheVariants.{NoMemory as no_memory};

    ghost from_gives = { λ _ e. e ≡ no_memory };

    fn from(_fault: AllocFailed<T>) -> StepFault {
        StepFault::NoMemory
    }
}
