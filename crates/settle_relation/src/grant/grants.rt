//! Grants that are carried out at their homes, each law as the clause of an empty function.

ghost use Rattle.settle_relation.specs.Grant.Carrying.{CarryLeads, CarryGoes, OwnGrantLeads, OwnGrantGoes};

/// A grant that is carried out is the machine's acceptance, and then its read or write.
pub fn carry_leads()
    ensures { CarryLeads }
{}

/// The page that is read for a grant doesn't differ.
pub fn carry_goes()
    ensures { CarryGoes }
{}

/// So is a grant of an owner to a transaction of its own.
pub fn own_grant_leads()
    ensures { OwnGrantLeads }
{}

/// Nor does the page of such a grant.
pub fn own_grant_goes()
    ensures { OwnGrantGoes }
{}
