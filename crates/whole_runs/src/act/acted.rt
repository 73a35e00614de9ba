//! Steps that a node makes whole, each law as the clause of an empty function.

ghost use Rattle.whole_runs.specs.Act.Acted.{ActedIsKept, UntakenActIsKept, NoActDiffers};

/// A step that a node makes whole leads each page to a state that it then has, on each event that redoes no page.
pub fn acted_is_kept()
    ensures { ActedIsKept }
{}

/// So does one on a message that is held or dropped.
pub fn untaken_act_is_kept()
    ensures { UntakenActIsKept }
{}

/// No page differs that is read for such an event.
pub fn no_act_differs()
    ensures { NoActDiffers }
{}
