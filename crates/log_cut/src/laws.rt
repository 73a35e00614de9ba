ghost use Rattle.log_cut.specs.Laws.{CutKeepsRedo};

/// A law, as the clause of an empty function: once what may be cut is cut from the front of a log,
/// redo of each page is as before.
pub fn cut_keeps_redo()
    ensures { CutKeepsRedo }
{}
