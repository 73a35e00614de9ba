//! Laws of the facts of clusters.

ghost use Rattle.cluster_facts.specs.Facts.{OpeningHasFacts, StepsHaveFacts};

/// The opening cluster has them.
pub fn opening_has_facts()
    ensures { OpeningHasFacts }
{}

/// A step on any event that leaves the pages related keeps them.
pub fn steps_have_facts()
    ensures { StepsHaveFacts }
{}
