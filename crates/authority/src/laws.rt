//! That plans are what a step of the rules does, each as the clause of an empty function.

ghost use Rattle.authority.specs.PlanLaws.{RequestsArePlanned, ReturnsArePlanned, EndsArePlanned, ChangesAreTaken, SettlingIsPlanned};

/// A request that arrives at the owner is its plan carried out: the planned entry takes its place in
/// the table, and the decisions are carried out in order.
pub fn requests_are_planned()
    ensures { RequestsArePlanned }
{}

/// So is a right that comes back.
pub fn returns_are_planned()
    ensures { ReturnsArePlanned }
{}

/// So is a release, and the end of an own transaction; and its change is taken exactly where the plan
/// says so.
pub fn ends_are_planned()
    ensures planned { EndsArePlanned }
    ensures taken { ChangesAreTaken }
{}

/// So is the settling of a page.
pub fn settling_is_planned()
    ensures { SettlingIsPlanned }
{}
