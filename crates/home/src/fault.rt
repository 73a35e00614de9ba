ghost use Rattle.std.specs.Prelude.{◌≡◌};

use pcl_base::{Call, NoMemory, PageNo, Reason};
use std::alloc::{AllocError, AllocFailed};

/// Why a call of a home ended early. `Refused` and `NoMemory` leave all as before.
#[derive(Clone, Copy, Debug, PartialEq, Eq)]
pub enum HomeFault {
    /// The first reason that holds against the call.
    Refused(Reason),
    /// The storage's count of this kind of call rose. The node is lost then.
    Failed {
        /// The kind of the call.
        call: Call,
        /// Whether the log is known to have the whole record of the transaction that was to be
        /// committed. False also where its length can't be asked after the force.
        kept: bool,
    },
    /// A page was read with another number or version than it must have.
    Differs {
        /// The page.
        page: PageNo,
        /// The number that should stand there.
        expected: u64,
        /// The number that does.
        found: u64,
    },
    /// Want of memory.
    NoMemory,
}

impl From<NoMemory> for HomeFault {
    ghost use Rattle.home.specs.declared.fault.HomeFault.TheVariants.{NoMemory as no_memory};

    ghost from_gives = { λ _ e. e ≡ no_memory };

    fn from(_fault: NoMemory) -> HomeFault {
        HomeFault::NoMemory
    }
}

impl From<AllocError> for HomeFault {
    ghost use Rattle.home.specs.declared.fault.HomeFault.TheVariants.{NoMemory as no_memory};

    ghost from_gives = { λ _ e. e ≡ no_memory };

    fn from(_fault: AllocError) -> HomeFault {
        HomeFault::NoMemory
    }
}

impl<T: Drop> From<AllocFailed<T>> for HomeFault {
    ghost use Rattle.home.specs.declared.fault.HomeFault.TheVariants.{NoMemory as no_memory};

    ghost from_gives = { λ _ e. e ≡ no_memory };

    fn from(_fault: AllocFailed<T>) -> HomeFault {
        HomeFault::NoMemory
    }
}
