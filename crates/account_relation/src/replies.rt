//! The law of replies.

ghost use Rattle.account_relation.specs.Replies.{StepsAnswer};

/// A step is refused, or its event's own reply comes first, and granted accesses and served partitions behind it;
/// an access may be granted with no reply before it.
pub fn steps_answer()
    ensures { StepsAnswer }
{}
