//! Laws of those who have something in a table.

ghost use Rattle.cluster_facts.specs.Table.Lives.{GatheredAreLiving, HoldersAreLiving, ListedAreLiving, OpeningHasTableLives, RightsAreLiving, StepsHaveTableLives};

/// In the opening cluster nobody holds a page, and nobody has a right.
pub fn opening_has_table_lives()
    ensures { OpeningHasTableLives }
{}

/// Through a step on any event, however it ends, each table of a node in a view has holders of lives in that view
/// alone, and rights of nodes that are live in it.
pub fn steps_have_table_lives()
    ensures { StepsHaveTableLives }
{}

/// Who holds a page in a table is of a life in the view of the table's node.
pub fn holders_are_living()
    ensures { HoldersAreLiving }
{}

/// A node that has a right in a table is live in the view of the table's node.
pub fn rights_are_living()
    ensures { RightsAreLiving }
{}

/// Whom the serving era of a page lists is of a life in the view of the node that serves it.
pub fn listed_are_living()
    ensures { ListedAreLiving }
{}

/// Whom a later era of a page lists of a node that has reported is of a life in the view of the node that rebuilds
/// the table.
pub fn gathered_are_living()
    ensures { GatheredAreLiving }
{}
