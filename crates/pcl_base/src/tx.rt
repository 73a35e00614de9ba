/// A transaction: its home node, the epoch in which that node was born, and a serial counted
/// from 1 for each node and birth.
#[derive(Clone, Copy, Debug, Default, PartialEq, Eq)]
pub struct TxId {
    /// The home node, below the number of nodes.
    pub node: u8,
    /// The epoch in which the home node was born, at least 1.
    pub born: u32,
    /// The serial of the transaction at that node since that birth, at least 1.
    pub serial: u32,
}

/// What a lock allows.
#[derive(Clone, Copy, Debug, Default, PartialEq, Eq)]
pub enum Mode {
    /// Reading beside other readers.
    #[default]
    Shared,
    /// Reading and writing alone.
    Exclusive,
}
