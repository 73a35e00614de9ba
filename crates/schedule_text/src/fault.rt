use thiserror::Error;

/// Why a line is outside the grammar.
#[derive(Clone, Copy, Debug, PartialEq, Eq)]
pub enum LineReason {
    /// No line of the grammar goes on with the byte at the column.
    Byte,
    /// The line ends before any line of the grammar does.
    Short,
}

/// Why a line gives nothing.
#[derive(Debug, Drop, Error, PartialEq, Eq)]
pub enum LineFault {
    /// The line is outside the grammar of docs/formats.md, bad lines. The column is the least one,
    /// counted from 1, up to which no line of the grammar goes: at [`LineReason::Byte`] that of a byte
    /// of the line, at [`LineReason::Short`] the one behind its last byte.
    #[error("BadLine")]
    BadLine { column: usize, reason: LineReason },
    /// Want of memory for what the line tells.
    #[error("NoMemory")]
    NoMemory,
}
