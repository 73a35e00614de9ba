//! A partition whose table the acting node keeps, each law as the clause of an empty function.

ghost use Rattle.report_relation.specs.Bury.Kept.{KeptIsClear, KeptIsClearEarly, PurgedAreLiving, PurgedIsKnown};

/// One that it serves is clear of the nodes that its new view drops, once who is past is buried.
pub fn kept_is_clear()
    ensures { KeptIsClear }
{}

/// So is one whose table it still rebuilds, once rights of such nodes count for its era no more.
pub fn kept_is_clear_early()
    ensures { KeptIsClearEarly }
{}

/// Holders that the purge leaves are of lives in the new view.
pub fn purged_are_living()
    ensures { PurgedAreLiving }
{}

/// A table that the purge leaves without a missing report is known as it has to be for its completion.
pub fn purged_is_known()
    ensures { PurgedIsKnown }
{}
