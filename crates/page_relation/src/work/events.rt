//! The simplest events keep the relation, each law as the clause of an empty function.

ghost use Rattle.page_relation.specs.Work.Events.{BackKeeps, GoneKeeps, BeginIsKept, EvictIsKept, FlushIsKept, CutIsKept, UntakenIsKept};
ghost use Rattle.page_relation.specs.Work.Letting.{LettingGoLeads, FramesKeep};

/// A copy that is written back keeps the relation.
pub fn back_keeps()
    ensures { BackKeeps }
{}

/// A copy of a page that nobody uses keeps it where it leaves.
pub fn gone_keeps()
    ensures { GoneKeeps }
{}

/// Copies of pages that nobody uses keep it where they leave, one after the other.
pub fn letting_go_leads()
    ensures { LettingGoLeads }
{}

/// The frames of an access that isn't refused keep it.
pub fn frames_keep()
    ensures { FramesKeep }
{}

/// A begin keeps the relation, with the same state of the machine.
pub fn begin_is_kept()
    ensures { BeginIsKept }
{}

/// An eviction that no stop ends keeps the relation.
pub fn evict_is_kept()
    ensures { EvictIsKept }
{}

/// A flush that no stop ends keeps the relation.
pub fn flush_is_kept()
    ensures { FlushIsKept }
{}

/// A cut of the log that no stop ends keeps the relation.
pub fn cut_is_kept()
    ensures { CutIsKept }
{}

/// A message that is held or dropped keeps the relation, with the same state of the machine.
pub fn untaken_is_kept()
    ensures { UntakenIsKept }
{}
