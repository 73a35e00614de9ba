use pcl_base::{NoMemory, Page};
use std::alloc::AllocError;
use thiserror::Error;

/// Why a script was not run.
#[derive(Debug, Drop, Error, PartialEq)]
pub enum ApplyFault {
    /// The first read whose bytes aren't the page as the script has left it: its place in the
    /// script, counted from 0, and the bytes that the page has there.
    #[error("Differs")]
    Differs { place: usize, expected: Page },
    /// Memory didn't suffice.
    #[error("NoMemory")]
    NoMemory,
}

impl From<AllocError> for ApplyFault {
    ghost use Rattle.std.specs.Prelude.{◌≡◌};
    ghost use Rattle.pcl_model.specs.declared.fault.ApplyFault.TheVariants.{NoMemory as no_memory};

    ghost from_gives = { λ _ e. e ≡ no_memory };

    fn from(_e: AllocError) -> ApplyFault {
        ApplyFault::NoMemory
    }
}

/// Why scripts were not run one after the other.
#[derive(Clone, Copy, Debug, Error, PartialEq, Eq)]
pub enum SerialFault {
    /// The first script with a read that differs, and the place of that read in it, both counted
    /// from 0.
    #[error("Differs")]
    Differs { script: usize, place: usize },
    /// Memory didn't suffice.
    #[error("NoMemory")]
    NoMemory,
}

impl From<NoMemory> for SerialFault {
    ghost use Rattle.std.specs.Prelude.{◌≡◌};
    ghost use Rattle.pcl_model.specs.declared.fault.SerialFault.TheVariants.{NoMemory as no_memory};

    ghost from_gives = { λ _ e. e ≡ no_memory };

    fn from(_fault: NoMemory) -> SerialFault {
        SerialFault::NoMemory
    }
}
