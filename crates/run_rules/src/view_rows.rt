//! Rows of views, computed by the checker.

ghost use Rattle.std.specs.Prelude.{◌≡◌, ◌∷◌, [], true, false, Ok, Err};
ghost use Rattle.run_rules.specs.Views.{first, next, reopen, follows};
ghost use Rattle.run_rules.specs.ViewRows.{two, lost, back};

/// Two nodes: one is lost, comes back, and what breaks a rule.
pub fn row_of_views()
    ensures dropped { next two (first two) (true ∷ false ∷ []) (0 ∷ 0 ∷ []) ≡ Ok lost }
    ensures returned { next two lost (true ∷ true ∷ []) (0 ∷ 1 ∷ []) ≡ Ok back }
    ensures one { next two lost (true ∷ []) (0 ∷ 1 ∷ []) ≡ Err 1 }
    ensures second { next two lost (false ∷ false ∷ []) (0 ∷ 1 ∷ []) ≡ Err 2 }
    ensures fourth { next two lost (true ∷ false ∷ []) (0 ∷ 1 ∷ []) ≡ Err 4 }
    ensures sixth { next two (record lost { epoch = 4294967295 }) (true ∷ true ∷ []) (0 ∷ 1 ∷ []) ≡ Err 6 }
    ensures opened { reopen two lost ≡ Ok (record { epoch = 3; live = true ∷ true ∷ []; owners = 0 ∷ 1 ∷ []; since = 3 ∷ 3 ∷ []; born = 3 ∷ 3 ∷ [] }) }
    ensures follows { follows two lost back ≡ true }
    ensures skips { follows two (first two) back ≡ false }
{}
