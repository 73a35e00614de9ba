//! The laws, each as the clause of an empty function.

ghost use Rattle.page_laws.specs.Written.Written.{NothingDiffers, PieceIsPut, PieceDiffers, LoggedIsPut};

/// A page doesn't differ from itself.
pub fn nothing_differs()
    ensures { NothingDiffers }
{}

/// A piece is put into a private copy as the machine of one page puts it.
pub fn piece_is_put()
    ensures { PieceIsPut }
{}

/// Once a piece within the page is put and its places are noted, the page differs within the noted runs
/// alone, if it did before.
pub fn piece_differs()
    ensures { PieceDiffers }
{}

/// What a commit logs of a page, put over the page before, gives the private copy, where that differs
/// within the noted runs alone.
pub fn logged_is_put()
    ensures { LoggedIsPut }
{}
