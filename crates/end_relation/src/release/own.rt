//! Ends at the own table, each law as the clause of an empty function.

ghost use Rattle.end_relation.specs.Release.OwnEnds.{OwnEndKeeps, OwnEndElsewhere, NoOwnEndDiffers, UntoldStays, OpenIsUnreleased, OwnIsUnreported};

/// An end that is told at the own table of its page keeps the relation, by one of the machine's releases.
pub fn own_end_keeps()
    ensures { OwnEndKeeps }
{}

/// One of another page isn't seen.
pub fn own_end_elsewhere()
    ensures { OwnEndElsewhere }
{}

/// It meets no page that differs.
pub fn no_own_end_differs()
    ensures { NoOwnEndDiffers }
{}

/// That nothing else tells an end stays through what isn't seen of the page.
pub fn untold_stays()
    ensures { UntoldStays }
{}

/// No release of a transaction that hasn't ended counts.
pub fn open_is_unreleased()
    ensures { OpenIsUnreleased }
{}

/// No report of a node comes that is of the era of its own table.
pub fn own_is_unreported()
    ensures { OwnIsUnreported }
{}
