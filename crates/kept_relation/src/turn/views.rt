//! A node comes into the next view, each law as the clause of an empty function.

ghost use Rattle.kept_relation.specs.Turn.Getting.{NewTableIsRebuilt, TurningIsStep};
ghost use Rattle.kept_relation.specs.Turn.Listing.{ReportIsListed};
ghost use Rattle.kept_relation.specs.Turn.Standing.{ViewIsKept, JoinIsKept};
ghost use Rattle.kept_relation.specs.Turn.Telling.{TellIsKept, TellingOwnerIsKept, TellingFirstIsKept};

/// A node that goes on to the next view, in which the partition of the page goes on, keeps the relation.
pub fn view_is_kept()
    ensures { ViewIsKept }
{}

/// A node that begins its life in a view joins the era of the page's partition.
pub fn join_is_kept()
    ensures { JoinIsKept }
{}

/// What a report of a node lists of a page.
pub fn report_is_listed()
    ensures { ReportIsListed }
{}

/// A node that didn't own the page's partition tells the new owner what it has.
pub fn tell_is_kept()
    ensures { TellIsKept }
{}

/// The owner of the page's partition tells the new one what it has.
pub fn telling_owner_is_kept()
    ensures { TellingOwnerIsKept }
{}

/// A node that begins its life tells the new owner of the page's partition.
pub fn telling_first_is_kept()
    ensures { TellingFirstIsKept }
{}

/// The new table of a partition that a node gets is one that is being rebuilt, with the node's own report in it.
pub fn new_table_is_rebuilt()
    ensures { NewTableIsRebuilt }
{}

/// A node that gets the page's partition turns its right into locks.
pub fn turning_is_step()
    ensures { TurningIsStep }
{}
