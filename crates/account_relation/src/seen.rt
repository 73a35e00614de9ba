//! Laws of what a ledger has of the nodes' views.

ghost use Rattle.account_relation.specs.Seen.{OpeningIsSeen, StepsKeepSeen};

/// The first ledger has the first view of each node.
pub fn opening_is_seen()
    ensures { OpeningIsSeen }
{}

/// A step on any event in which no page differs: where its sends have their causes, the ledger has the view of each
/// node after it, and each install since which a node owns a partition.
pub fn steps_keep_seen()
    ensures { StepsKeepSeen }
{}
