//! Settling keeps the relation, each law as the clause of an empty function.

ghost use Rattle.settle_relation.specs.Counted.{ComingIsNotPast};
ghost use Rattle.settle_relation.specs.Deciding.{DecidingIsRelated};
ghost use Rattle.settle_relation.specs.Fitting.{WordsFit};
ghost use Rattle.settle_relation.specs.Settling.{SettlingKeeps, SettlingAgrees};

/// What comes to a node is of no earlier era than the one that serves.
pub fn coming_is_not_past()
    ensures { ComingIsNotPast }
{}

/// A decision of the authority that changes what it lists, sends or gives is that of the machine, with the entry after it.
pub fn deciding_is_related()
    ensures { DecidingIsRelated }
{}

/// What an owner says of the copy with a grant is what the machine has.
pub fn words_fit()
    ensures { WordsFit }
{}

/// Settling any page keeps the relation of each page.
pub fn settling_keeps()
    ensures { SettlingKeeps }
{}

/// No page that is read in settling differs, where the settled page is related.
pub fn settling_agrees()
    ensures { SettlingAgrees }
{}
