//! Messages that are taken and sent, each law as the clause of an empty function.

ghost use Rattle.page_relation.specs.Work.Sends.{SendIsLinked, SendIsKept, NothingIsAhead};
ghost use Rattle.page_relation.specs.Work.Revoking.{BackIsNotEarlier, RevokeIsKept};
ghost use Rattle.page_relation.specs.Work.Spending.{SpendsElsewhere, SpendingIsStep};
ghost use Rattle.page_relation.specs.Work.Taken.{TakenIsSaid};

/// A message that says what the machine has goes on its link.
pub fn send_is_linked()
    ensures { SendIsLinked }
{}

/// So the relation is kept where such a message is sent, with the same state of the machine.
pub fn send_is_kept()
    ensures { SendIsKept }
{}

/// Nothing that comes from the acting node is of a later epoch than its own.
pub fn nothing_is_ahead()
    ensures { NothingIsAhead }
{}

/// What every event of a message that is taken starts from: what the message says, and of which era it is.
pub fn taken_is_said()
    ensures { TakenIsSaid }
{}

/// A right that is spent at its node by a revocation is the machine's revocation, where each lock of the node was used.
pub fn spending_is_step()
    ensures { SpendingIsStep }
{}

/// A right of another page that is spent isn't seen.
pub fn spends_elsewhere()
    ensures { SpendsElsewhere }
{}

/// What comes back to the sender of a message and counts there is of no earlier era than that message.
pub fn back_is_not_earlier()
    ensures { BackIsNotEarlier }
{}

/// A revocation that is taken keeps the relation: its right is spent and answered, if there is one.
pub fn revoke_is_kept()
    ensures { RevokeIsKept }
{}
