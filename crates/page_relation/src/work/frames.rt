//! What is seen of a cluster as if a step had ended, and how each part of the relation stays, each law as the clause
//! of an empty function.

ghost use Rattle.page_relation.specs.Work.Frames.{HistoryStays, StoredStays, CopiesStay, HomesStay, NodesStay, TablesStay, LinksStay, UnseenIsKept, UnseenGoesOn};
ghost use Rattle.page_relation.specs.Work.Landing.{LandingIsSeen};
ghost use Rattle.page_relation.specs.Work.Rest.{RestStays};

/// A cluster as if a step had ended: its nodes, links, storage and trace by the work of the step.
pub fn landing_is_seen()
    ensures { LandingIsSeen }
{}

/// What commits have made of a page stays where the trace tells the same of it.
pub fn history_stays()
    ensures { HistoryStays }
{}

/// What is stored of a page stays where the calls leave it.
pub fn stored_stays()
    ensures { StoredStays }
{}

/// The copies of a page stay where that of the acting node does.
pub fn copies_stay()
    ensures { CopiesStay }
{}

/// The transactions at their homes stay where those of the acting node have the same of the page.
pub fn homes_stay()
    ensures { HomesStay }
{}

/// Rights and reached eras stay where those of the acting node do.
pub fn nodes_stay()
    ensures { NodesStay }
{}

/// The tables stay where that of the acting node has the same of the page.
pub fn tables_stay()
    ensures { TablesStay }
{}

/// The messages on their way stay where nothing more is sent that speaks of the page.
pub fn links_stay()
    ensures { LinksStay }
{}

/// The relation stays where nothing changes that is seen of the page.
pub fn unseen_is_kept()
    ensures { UnseenIsKept }
{}

/// What isn't seen of a page may be done one after the other.
pub fn unseen_goes_on()
    ensures { UnseenGoesOn }
{}

/// Where the machine changes what is stored alone, the other parts of the relation stay.
pub fn rest_stays()
    ensures { RestStays }
{}
