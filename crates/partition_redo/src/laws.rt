ghost use Rattle.partition_redo.specs.Plans.{ChainsStay, EntriesStay, NewerStay, NewerAreWritten};

/// A law, as the clauses of an empty function: what `prepare` says of a plan holds until a listed
/// page or a whole record of a log changes. A torn rest, its trim and other pages don't matter.
pub fn plan_stays()
    ensures chains { ChainsStay }
    ensures entries { EntriesStay }
    ensures newer { NewerStay }
{}

/// The pages that a plan tells as written are those of which redo writes something, in the order in
/// which they were given.
pub fn newer_are_written()
    ensures { NewerAreWritten }
{}
