//! Laws of the machine's states that are related to clusters whose locks were used.

ghost use Rattle.related_runs.specs.Locks.Holders.{NobodyComesToHold};
ghost use Rattle.related_runs.specs.Locks.Seen.{ReadersAreUsed, UsedIsSeen, WorksAreUsed};

/// In a state of the machine of one page that is related to such a cluster, who has a lock has accessed the page.
pub fn used_is_seen()
    ensures { UsedIsSeen }
{}

/// So it is within a step that begins there, while no transaction has come to hold the page.
pub fn works_are_used()
    ensures { WorksAreUsed }
{}

/// And each reader under the right that the node has then has accessed the page.
pub fn readers_are_used()
    ensures { ReadersAreUsed }
{}

/// Nobody comes to hold a page where each has the same of it, by what an install does with locks, or by a right that is spent.
pub fn nobody_comes_to_hold()
    ensures { NobodyComesToHold }
{}
