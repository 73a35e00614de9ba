ghost use Rattle.messages.specs.Laws.{ReadAgain};

/// Reading what was written gives it back. With the clauses of [`decode`](crate::decode) it says
/// that bytes are read as a message exactly where all of them spell it.
pub fn written_is_read_again()
    ensures { ReadAgain }
{}
