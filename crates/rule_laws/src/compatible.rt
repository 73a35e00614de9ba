//! Laws of lock entries in which no transaction holds the page exclusively beside another holder or a right.
//!
//! An entry that is made anew from reports is compatible if the reports are: that is no law of one entry.

ghost use Rattle.rule_laws.specs.Compatible.{WriterIsAlone, IdleIsCompatible, AskKeeps, SettlingKeeps, EndKeeps, ReturnKeeps, PurgeKeeps};

/// In a compatible entry an exclusive holder has no other transaction and no right beside it.
pub fn writer_is_alone()
    ensures { WriterIsAlone }
{}

/// An entry with empty lists is compatible.
pub fn idle_is_compatible()
    ensures { IdleIsCompatible }
{}

/// A request keeps an entry compatible.
pub fn ask_keeps()
    ensures { AskKeeps }
{}

/// Settling keeps an entry compatible.
pub fn settling_keeps()
    ensures { SettlingKeeps }
{}

/// The end of any transaction, with or without a change, keeps an entry compatible.
pub fn end_keeps()
    ensures { EndKeeps }
{}

/// A right that comes back keeps an entry compatible, whichever readers come with it: where the right stood
/// no holder was exclusive, and elsewhere nothing changes.
pub fn return_keeps()
    ensures { ReturnKeeps }
{}

/// A purge keeps an entry compatible, whichever nodes are live.
pub fn purge_keeps()
    ensures { PurgeKeeps }
{}
