//! Laws of what a ledger has of the whole cluster.

ghost use Rattle.account_relation.specs.World.{OpeningIsWorld, StepsKeepWorld};

/// The first ledger is that of the opening cluster.
pub fn opening_is_world()
    ensures { OpeningIsWorld }
{}

/// A step on any event in which no page differs: where its sends have their causes, the ledger has the nodes that are
/// up, the messages on each link and the views of the cluster after it.
pub fn steps_keep_world()
    ensures { StepsKeepWorld }
{}
