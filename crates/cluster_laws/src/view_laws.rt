//! Laws of the views of a sound cluster.

ghost use Rattle.cluster_laws.specs.ViewLaws.{LastViewIsWhole, ViewsAreWhole, ViewsAreNumbered, NoViewIsRefused};

/// The view that was made last is whole, and its epoch has four bytes.
pub fn last_view_is_whole()
    ensures { LastViewIsWhole }
{}

/// So is the view of any epoch, which isn't above the last one.
pub fn views_are_whole()
    ensures { ViewsAreWhole }
{}

/// There are as many views as the last epoch, and each stands at the place of its epoch.
pub fn views_are_numbered()
    ensures { ViewsAreNumbered }
{}

/// A node that is up isn't refused the view after its own, where there is one.
pub fn no_view_is_refused()
    ensures { NoViewIsRefused }
{}
