use thiserror::Error;

/// Why bytes are no message. A place is that of the first byte of the field that failed, counted
/// from 0.
#[derive(Clone, Copy, Debug, Error, PartialEq, Eq)]
pub enum DecodeFault {
    /// A field isn't whole.
    #[error("Short")]
    Short { place: usize },
    /// The kind isn't 1 to 6.
    #[error("BadKind")]
    BadKind { place: usize },
    /// The value of a field isn't allowed.
    #[error("BadField")]
    BadField { place: usize },
    /// Bytes follow the body; the place is that of the first of them.
    #[error("TooLong")]
    TooLong { place: usize },
    /// Want of memory.
    #[error("NoMemory")]
    NoMemory,
}
