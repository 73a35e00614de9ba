#![tactic(auto)]

//! What the ledger of a trace has of its cluster, beside what `account_relation` says: items and rights of the tables, the
//! homes of transactions, the versions of pages, and the causes of releases. Each law is the clause of a function that
//! does nothing.

ghost use Rattle.account_strands.specs.Homes.{OpeningHasHomes};
ghost use Rattle.account_strands.specs.Items.{OpeningHasItems};
ghost use Rattle.account_strands.specs.Versions.{OpeningHasVersions};

/// The first ledger has the items of the opening cluster's tables: there are none.
pub fn opening_has_items()
    ensures { OpeningHasItems }
{}

/// The first ledger has the transactions of the opening cluster: there are none.
pub fn opening_has_homes()
    ensures { OpeningHasHomes }
{}

/// The first ledger has the versions of the opening cluster: all are zero.
pub fn opening_has_versions()
    ensures { OpeningHasVersions }
{}
