//! Laws of the relation.

ghost use Rattle.page_relation.specs.Laws.{OpeningIsRelated, OpeningIsWhole};

/// The opening cluster is related, for each page, to the opening state of that page.
pub fn opening_is_related()
    ensures { OpeningIsRelated }
{}

/// All that is to hold of every cluster of a run holds of the opening one: what is asked of its nodes, logs and
/// links, and a state for each page that the machine of one page reaches and that is related to it.
pub fn opening_is_whole()
    ensures { OpeningIsWhole }
{}
