ghost use Rattle.whole_runs.specs.Rest.Closing.{RedoingIsLeft, OnlyRedoingDiffers};

/// Each step from a cluster of a run keeps its pages, where installs and reports that are taken there do.
pub fn redoing_is_left()
    ensures { RedoingIsLeft }
{}

/// No page differs in a step that redoes none.
pub fn only_redoing_differs()
    ensures { OnlyRedoingDiffers }
{}
