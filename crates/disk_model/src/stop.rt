/// An armed stop of a node: which of its changing calls fails, and what that call keeps.
#[derive(Clone, Copy, Debug, PartialEq, Eq)]
pub struct Stop {
    /// The number of the changing call, where 1 is the node's next one.
    pub call: u32,
    /// The bytes of a force that are kept, at most as many as it has. Another call is undone at 0
    /// and done at any other number.
    pub kept: u32,
}
