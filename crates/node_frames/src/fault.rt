ghost use Rattle.std.specs.Prelude.{◌≡◌};

use schedule_text::LineReason;
use std::alloc::{AllocError, AllocFailed};

/// What is wrong with a field of a message or a view.
#[derive(Clone, Copy, Debug, PartialEq, Eq)]
pub enum FieldFault {
    /// It isn't whole.
    Short,
    /// It is a kind that isn't one.
    BadKind,
    /// Its value isn't allowed.
    BadField,
    /// Bytes follow where nothing more may stand.
    TooLong,
}

/// Why a frame is bad (docs/formats.md, bad frames).
#[derive(Clone, Copy, Debug, PartialEq, Eq)]
pub enum FrameReason {
    /// Its length isn't 1 to 134,217,728.
    Length,
    /// The input ends within it.
    Cut,
    /// Its kind is none of `L`, `M` and `V`.
    Kind,
    /// Its line isn't in the grammar, or is of an event that is no step of a node.
    Line(LineReason),
    /// A field of its message or its view is bad.
    Field(FieldFault),
}

/// Why a frame gives nothing.
#[derive(Clone, Copy, Debug, PartialEq, Eq)]
pub enum FrameFault {
    /// The frame is bad. The place is that of the byte at fault, counted from 1 at the frame's
    /// first byte.
    Bad { place: usize, reason: FrameReason },
    /// Want of memory for what the frame tells.
    NoMemory,
}

impl From<AllocError> for FrameFault {
    ghost use Rattle.node_frames.specs.declared.fault.FrameFault.TheVariants.{NoMemory as no_memory};

    ghost from_gives = { λ _ e. e ≡ no_memory };

    fn from(_fault: AllocError) -> FrameFault {
        FrameFault::NoMemory
    }
}

impl<T: Drop> From<AllocFailed<T>> for FrameFault {
    ghost use Rattle.node_frames.specs.declared.fault.FrameFault.TheVariants.{NoMemory as no_memory};

    ghost from_gives = { λ _ e. e ≡ no_memory };

    fn from(_fault: AllocFailed<T>) -> FrameFault {
        FrameFault::NoMemory
    }
}

/// Why the next frame of the input wasn't read.
#[derive(Clone, Copy, Debug, PartialEq, Eq)]
pub enum InputFault {
    /// The frame is bad before its kind is looked at: its length isn't allowed, or the input ends
    /// within it. The place is that of the byte at fault, counted from 1 at the frame's first byte.
    Bad { place: usize, reason: FrameReason },
    /// The source failed.
    Source,
    /// Want of memory for the frame.
    NoMemory,
}
