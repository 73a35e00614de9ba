//! Laws of births that are known.

ghost use Rattle.cluster_facts.specs.Known.Births.{GrantedAreKnown, KnownStays, OpeningHasKnownBirths, ServedAreKnown, StepsHaveKnownBirths};

/// In a related cluster a birth is known that isn't above the epoch of the owner that serves.
pub fn served_are_known()
    ensures { ServedAreKnown }
{}

/// So is that of a node to which a grant comes that it takes.
pub fn granted_are_known()
    ensures { GrantedAreKnown }
{}

/// What is known of a birth stays known through a step on any event.
pub fn known_stays()
    ensures { KnownStays }
{}

/// In the opening cluster all births that are to be known are so.
pub fn opening_has_known_births()
    ensures { OpeningHasKnownBirths }
{}

/// A step on any event between related clusters keeps it, however it ends.
pub fn steps_have_known_births()
    ensures { StepsHaveKnownBirths }
{}
