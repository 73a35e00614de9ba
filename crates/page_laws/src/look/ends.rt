//! Laws of ends, of changes of peers, and of partitions that come and go.

ghost use Rattle.page_laws.specs.Look.Ends.{AbortIsSeen, CommitIsSeen, ChangeIsSeen, TakingOverIsSeen, GivingUpIsSeen};

/// Of a transaction that is given up nothing is left, and the copies of pages stay.
pub fn abort_is_seen()
    ensures { AbortIsSeen }
{}

/// Of a transaction that is committed nothing is left, and each page that it holds exclusively has its private copy
/// at the next version; the copies of the other pages stay.
pub fn commit_is_seen()
    ensures { CommitIsSeen }
{}

/// A change of a peer goes into a slot, or is stored at once where its page has none, and nothing else changes but
/// copies that are let go.
pub fn change_is_seen()
    ensures { ChangeIsSeen }
{}

/// In a partition that the node gets just the locks on its pages become own ones, and the rights on them go.
pub fn taking_over_is_seen()
    ensures { TakingOverIsSeen }
{}

/// In a partition that leaves the node just the locks on its pages become registered ones, and their copies clean.
pub fn giving_up_is_seen()
    ensures { GivingUpIsSeen }
{}
