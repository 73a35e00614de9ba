//! What isn't seen of a page while its partition hasn't its turn, each law as the clause of an empty function.

ghost use Rattle.install_relation.specs.Unseen.{UnseenBefore, TellingElsewhere, TakingElsewhere, EnteringIsUnseen};

/// What isn't seen of a page isn't seen of it with the old view of its node either.
pub fn unseen_before()
    ensures { UnseenBefore }
{}

/// Telling the new owner of another partition isn't seen.
pub fn telling_elsewhere()
    ensures { TellingElsewhere }
{}

/// Another partition that is taken over isn't seen.
pub fn taking_elsewhere()
    ensures { TakingElsewhere }
{}

/// With the old view of the node nothing is seen of the reply and the new birth with which an install begins.
pub fn entering_is_unseen()
    ensures { EnteringIsUnseen }
{}
