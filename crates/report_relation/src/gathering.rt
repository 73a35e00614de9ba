//! Reports that are put into a table, each law as the clause of an empty function.

ghost use Rattle.report_relation.specs.Gathering.{GatheringIsRelated, ReportIsGathered};

/// A report that is put into a table keeps the relation, with the same state of the machine.
pub fn gathering_is_related()
    ensures { GatheringIsRelated }
{}

/// A report that is taken keeps the relation, while a further one is missing.
pub fn report_is_gathered()
    ensures { ReportIsGathered }
{}
