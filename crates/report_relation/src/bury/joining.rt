//! From all tables and births to one page, each law as the clause of an empty function.

ghost use Rattle.report_relation.specs.Bury.Joining.{BirthsAreBeforeNewEras, WaitersAreKnown};

/// Who waits for a page is known as it has to be when a report comes.
pub fn waiters_are_known()
    ensures { WaitersAreKnown }
{}

/// A birth whose era an earlier epoch has reached is before a new era.
pub fn births_are_before_new_eras()
    ensures { BirthsAreBeforeNewEras }
{}
