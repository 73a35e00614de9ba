//! The purge of a table at an install, each law as the clause of an empty function.

ghost use Rattle.kept_relation.specs.Purging.{PurgingIsRelated, PurgingEarlyIsRelated, PurgingLeads, PurgingEarlyLeads};

/// The purge of a table that serves keeps the relation, with the state without the dead.
pub fn purging_is_related()
    ensures { PurgingIsRelated }
{}

/// So does the purge of a table that is being rebuilt.
pub fn purging_early_is_related()
    ensures { PurgingEarlyIsRelated }
{}

/// A run of the machine leads to the work with the purged table that serves.
pub fn purging_leads()
    ensures { PurgingLeads }
{}

/// So does one to the work with the purged table that is being rebuilt.
pub fn purging_early_leads()
    ensures { PurgingEarlyLeads }
{}
