//! A computed row, as the clause of an empty function.

ghost use Rattle.std.specs.Prelude.{◌≡◌, true, false, [], ◌∷◌};
ghost use Rattle.page_laws.specs.Written.Rows.{two_runs};
ghost use Rattle.page_laws.specs.Written.Written.{is_inside, DiffersWithin};

/// A run goes from its first place up to the one behind its last, and bytes there may differ.
pub fn row_of_runs()
    ensures before { is_inside two_runs 0 ≡ false }
    ensures first { is_inside two_runs 1 ≡ true }
    ensures last { is_inside two_runs 2 ≡ true }
    ensures behind { is_inside two_runs 3 ≡ false }
    ensures second { is_inside two_runs 5 ≡ true }
    ensures longer { DiffersWithin two_runs (1 ∷ []) (1 ∷ 2 ∷ []) → ⊥ }
    ensures elsewhere { DiffersWithin two_runs (1 ∷ 2 ∷ []) (3 ∷ 2 ∷ []) → ⊥ }
{}
