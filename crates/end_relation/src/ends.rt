//! Ends of transactions, each law as the clause of an empty function.

ghost use Rattle.end_relation.specs.Ends.{
  AbortGoes,
  AbortIsKept,
  AbortLeaves,
  CommitGoes,
  CommitIsKept,
  CommitLeaves,
};

/// An abort that was made at its home, and isn't told yet, leaves each page to a state of the machine in which its end is
/// owed.
pub fn abort_leaves()
    ensures { AbortLeaves }
{}

/// So does a commit, whose pages come to their next versions all at once.
pub fn commit_leaves()
    ensures { CommitLeaves }
{}

/// An abort keeps the relation of each page: its transaction ends there without a commit, and the page's owner is told.
pub fn abort_is_kept()
    ensures { AbortIsKept }
{}

/// So does a commit: each page that its transaction wrote comes to its next version in one commit of the machine, each
/// other one that it held ends with its reads, and the page's owner is told.
pub fn commit_is_kept()
    ensures { CommitIsKept }
{}

/// No page differs in an abort.
pub fn abort_goes()
    ensures { AbortGoes }
{}

/// Nor does one in a commit.
pub fn commit_goes()
    ensures { CommitGoes }
{}
