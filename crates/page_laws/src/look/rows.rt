//! Rows: what is seen of a small home.

ghost use Rattle.std.specs.Prelude.{◌≡◌, ◌∷◌, [], true, false, Some, None};
ghost use Rattle.node_rules.specs.Shelf.{right_on};
ghost use Rattle.page_laws.specs.Look.Rows.{first, second, small};
ghost use Rattle.page_laws.specs.Look.Parts.{is_place};
ghost use Rattle.page_laws.specs.Look.Buffers.{is_used_by};
ghost use Rattle.page_laws.specs.Look.Accesses.{bytes_before};
ghost use Rattle.page_laws.specs.Look.Ends.{committed_copy, version_of_right};

/// What a transaction has before a write, what its commit leaves, and who uses which page.
pub fn row_of_a_home()
    ensures private_before { bytes_before small first 3 ≡ 9 ∷ [] }
    ensures copy_before { bytes_before small first 1 ≡ 8 ∷ [] }
    ensures committed { committed_copy small first 3 ≡ Some (record { version = 5; bytes = 9 ∷ []; dirty = true }) }
    ensures read { committed_copy small first 1 ≡ Some (record { version = 2; bytes = 8 ∷ []; dirty = false }) }
    ensures other { committed_copy small second 3 ≡ Some (record { version = 4; bytes = 7 ∷ []; dirty = false }) }
    ensures right { version_of_right (right_on small.shelf 1) ≡ Some 2 }
    ensures no_right { version_of_right (right_on small.shelf 3) ≡ None }
    ensures used { is_used_by small.txs 3 first ≡ true }
    ensures unused { is_used_by small.txs 3 second ≡ false }
    ensures place { is_place first 3 first 3 ≡ true }
    ensures other_place { is_place first 3 first 1 ≡ false }
{}
