//! Runs of the machine of one page, each law as the clause of an empty function.

ghost use Rattle.report_relation.specs.Bury.Running.{BurialIsRun, LoweringIsRun, RightsAreBounded};

/// The machine comes to the state in which eras after the one that serves have nothing of closed transactions.
pub fn burial_is_run()
    ensures { BurialIsRun }
{}

/// It comes to the one in which rights of some nodes that were given back count for fewer eras.
pub fn lowering_is_run()
    ensures { LoweringIsRun }
{}

/// In each state that the machine reaches no more than some nodes have a right.
pub fn rights_are_bounded()
    ensures { RightsAreBounded }
{}
