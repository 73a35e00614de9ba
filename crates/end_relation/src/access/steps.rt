//! Steps of the machine at the home of one transaction, each law as the clause of an empty function.

ghost use Rattle.end_relation.specs.Access.Altered.{AlteredIsRelated};
ghost use Rattle.end_relation.specs.Access.Steps.{ReadingIsStep, WritingIsStep, ReadingUnderIsStep, WaitingIsStep, AskingIsEntered, WaitingIsToldFirst};

/// A work in which transactions stand elsewhere or have accessed more has the state of the machine in which they do.
pub fn altered_is_related()
    ensures { AlteredIsRelated }
{}

/// A granted read is the machine's.
pub fn reading_is_step()
    ensures { ReadingIsStep }
{}

/// A granted write is the machine's.
pub fn writing_is_step()
    ensures { WritingIsStep }
{}

/// A transaction that begins to read under the right of its node is the machine's reader.
pub fn reading_under_is_step()
    ensures { ReadingUnderIsStep }
{}

/// A transaction that begins to wait has asked in the machine, with the version of its node's copy.
pub fn waiting_is_step()
    ensures { WaitingIsStep }
{}

/// A request that goes into the entry of its page leaves the state of the machine, where its transaction has asked.
pub fn asking_is_entered()
    ensures { AskingIsEntered }
{}

/// A reply which tells that an access waits may stand in front of what the step has answered before.
pub fn waiting_is_told_first()
    ensures { WaitingIsToldFirst }
{}
