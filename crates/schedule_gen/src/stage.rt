use pcl_base::NodeNo;

/// The three turns of a round. In each one both transactions have an access, and a sweep follows.
#[derive(Clone, Copy, Debug, PartialEq, Eq)]
pub(crate) enum Turn {
    /// The first turn. A failure may follow it.
    First,
    /// The second turn.
    Second,
    /// The third turn. The ends of the transactions follow it.
    Third,
}

/// The event of a round that is next, but for the deliveries that are due before it.
#[derive(Clone, Copy, Debug, PartialEq, Eq)]
pub(crate) enum Stage {
    /// The first transaction begins.
    BeginFirst,
    /// The second transaction begins at this node.
    BeginSecond { node: NodeNo },
    /// An access of the first transaction.
    AccessFirst { turn: Turn },
    /// An access of the second transaction.
    AccessSecond { turn: Turn },
    /// A live node crashes.
    Crash,
    /// The view without the crashed node.
    View,
    /// The view is installed, at the live node with this place among the live ones.
    Install { place: usize },
    /// The first transaction commits.
    CommitFirst,
    /// The first transaction gives up.
    AbortFirst,
    /// The second transaction commits.
    CommitSecond,
    /// The second transaction gives up.
    AbortSecond,
}
