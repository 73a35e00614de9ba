//! Which moments an entry adds, each law as the clause of an empty function.

ghost use Rattle.page_laws.specs.Moment.Adds.{EventAdds, ReplyAdds, SentAddsNothing, RefusedAddsNothing, HaltAdds};

/// An entry without replies adds the access that its event asks for.
pub fn event_adds()
    ensures { EventAdds }
{}

/// A further reply that is no refusal adds what it tells: a granted access or a commit point, or nothing.
pub fn reply_adds()
    ensures { ReplyAdds }
{}

/// What is sent adds nothing.
pub fn sent_adds_nothing()
    ensures { SentAddsNothing }
{}

/// A refused event adds nothing.
pub fn refused_adds_nothing()
    ensures { RefusedAddsNothing }
{}

/// A halt adds the commit point of the record that it kept, if it kept one.
pub fn halt_adds()
    ensures { HaltAdds }
{}
