//! The laws, each as the clause of an empty function.

ghost use Rattle.home_laws.specs.Agreement.{ReadsAgree, WritesAgree, CommitsAgree, AbortsAgree};
ghost use Rattle.home_laws.specs.Laws.{OpenHomeIsSound};

/// A home where nothing was begun is sound.
pub fn open_home_is_sound()
    ensures { OpenHomeIsSound }
{}

/// What a home refuses by itself of an access, a commit and an abort is, reason for reason, what a
/// step of its node refuses, where the node is in a view.
pub fn refusals_agree()
    ensures reads { ReadsAgree }
    ensures writes { WritesAgree }
    ensures commits { CommitsAgree }
    ensures aborts { AbortsAgree }
{}
