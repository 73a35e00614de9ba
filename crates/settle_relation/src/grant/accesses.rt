//! Granted accesses that are performed, each law as the clause of an empty function.

ghost use Rattle.settle_relation.specs.Grant.Going.{TablesGoOn, LinksGoOn};
ghost use Rattle.settle_relation.specs.Grant.Performing.{PerformIsStep, HeldMayAccess, PerformsElsewhere};

/// Tables that have what the machine has go on to have it where homes go on.
pub fn tables_go_on()
    ensures { TablesGoOn }
{}

/// So do messages.
pub fn links_go_on()
    ensures { LinksGoOn }
{}

/// A granted access that is performed is the machine's read or write.
pub fn perform_is_step()
    ensures { PerformIsStep }
{}

/// A transaction that holds the page in a covering mode and waits for nothing may do its access.
pub fn held_may_access()
    ensures { HeldMayAccess }
{}

/// A granted access of another page isn't seen.
pub fn performs_elsewhere()
    ensures { PerformsElsewhere }
{}
