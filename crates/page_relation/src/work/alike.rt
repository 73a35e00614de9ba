//! Changes of a work that aren't seen at a page, each law as the clause of an empty function.

ghost use Rattle.page_relation.specs.Work.Alike.{QuietReplies, ReadsElsewhere, WritesElsewhere, SendsElsewhere, HomesElsewhere, TablesElsewhere, EntriesElsewhere, CallsElsewhere};
ghost use Rattle.page_relation.specs.Work.Granting.{GrantsElsewhere};

/// A reply that tells no access and no commit isn't seen at any page.
pub fn quiet_replies()
    ensures { QuietReplies }
{}

/// A granted read of another page isn't seen.
pub fn reads_elsewhere()
    ensures { ReadsElsewhere }
{}

/// A granted write of another page isn't seen.
pub fn writes_elsewhere()
    ensures { WritesElsewhere }
{}

/// A message that doesn't speak of the page isn't seen.
pub fn sends_elsewhere()
    ensures { SendsElsewhere }
{}

/// Another home that has the same of the page, and whose calls leave what is stored of it, isn't seen.
pub fn homes_elsewhere()
    ensures { HomesElsewhere }
{}

/// Another table isn't seen where it has the same of the page, or is of another partition.
pub fn tables_elsewhere()
    ensures { TablesElsewhere }
{}

/// Another entry of another page isn't seen.
pub fn entries_elsewhere()
    ensures { EntriesElsewhere }
{}

/// Page writes of other pages leave what is stored of the page.
pub fn calls_elsewhere()
    ensures { CallsElsewhere }
{}

/// A grant of another page that is carried out isn't seen: the page is brought, the lock is there, the access is done.
pub fn grants_elsewhere()
    ensures { GrantsElsewhere }
{}
