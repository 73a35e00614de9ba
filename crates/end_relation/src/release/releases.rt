//! Releases that are taken, each law as the clause of an empty function.

ghost use Rattle.end_relation.specs.Release.Releasing.{ReleaseIsKept, NoReleaseDiffers};

/// A release that is taken keeps the relation of each page.
pub fn release_is_kept()
    ensures { ReleaseIsKept }
{}

/// It meets no page that differs.
pub fn no_release_differs()
    ensures { NoReleaseDiffers }
{}
