//! Eras that lose their dead, each law as the clause of an empty function.

ghost use Rattle.report_relation.specs.Bury.Burying.{BuryingIsRelated, LoweringIsRelated};

/// Where no table and no message names the dead, the relation stays without them.
pub fn burying_is_related()
    ensures { BuryingIsRelated }
{}

/// It stays where rights that were given back count for fewer eras.
pub fn lowering_is_related()
    ensures { LoweringIsRelated }
{}
