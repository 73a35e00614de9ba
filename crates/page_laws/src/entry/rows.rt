//! Rows: decisions that are made and that can't be, and what reports list, at small entries.

ghost use Rattle.std.specs.Prelude.{◌≡◌, true, false, Some, None};
ghost use Rattle.pcl_base.specs.declared.tx.Mode.TheVariants.{Shared, Exclusive};
ghost use Rattle.node_rules.specs.LockRows.{a, b};
ghost use Rattle.page_laws.specs.Entry.Rows.{NotBesideAReader, NotBesideARight, NotBesideAWriter, NotUnasked, NoRightBeforeAWriter, NoRightToTheOwner, NotRevokedTwice, OneAfterTheOther, RevokedOnce, WaitsInVain, some_locks, some_rights};
ghost use Rattle.page_laws.specs.Entry.Tables.{mode_listed, lists_right};

/// Decisions that are made one after the other, and entries at which one can't be made.
pub fn row_of_decisions()
    ensures made { OneAfterTheOther }
    ensures revoked { RevokedOnce }
    ensures beside_a_reader { NotBesideAReader }
    ensures beside_a_right { NotBesideARight }
    ensures beside_a_writer { NotBesideAWriter }
    ensures unasked { NotUnasked }
    ensures right_before_a_writer { NoRightBeforeAWriter }
    ensures right_to_the_owner { NoRightToTheOwner }
    ensures revoked_twice { NotRevokedTwice }
    ensures in_vain { WaitsInVain }
{}

/// What a report lists of a page and of another one.
pub fn row_of_looks()
    ensures first { mode_listed some_locks a 3 ≡ Some Shared }
    ensures second { mode_listed some_locks b 3 ≡ Some Exclusive }
    ensures elsewhere { mode_listed some_locks b 5 ≡ Some Shared }
    ensures nowhere { mode_listed some_locks a 5 ≡ None }
    ensures right { lists_right some_rights 5 ≡ true }
    ensures no_right { lists_right some_rights 3 ≡ false }
{}
