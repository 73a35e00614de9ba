//! Rows of eras, lives and messages that count.

ghost use Rattle.std.specs.Prelude.{◌≡◌, ◌∷◌, [], true, false, Some, None};
ghost use Rattle.pcl_base.specs.declared.event.Event.TheVariants as event;
ghost use Rattle.cluster_laws.specs.Era.EraRows.{back, eras, owners, births, lives, life_after, counting};

/// Node 1 is dropped in view 2 and comes back in view 3 as the owner of its partition: there are no views 0 and 4.
pub fn row_of_eras()
    ensures first_era { eras 0 ≡ 0 ∷ 1 ∷ 1 ∷ 1 ∷ 0 ∷ [] }
    ensures new_eras { eras 1 ≡ 0 ∷ 1 ∷ 2 ∷ 3 ∷ 0 ∷ [] }
    ensures owners { owners 1 ≡ 0 ∷ 1 ∷ 0 ∷ 1 ∷ 0 ∷ [] }
    ensures first_life { births 0 ≡ 0 ∷ 1 ∷ 1 ∷ 1 ∷ 0 ∷ [] }
    ensures second_life { births 1 ≡ 0 ∷ 1 ∷ 1 ∷ 3 ∷ 0 ∷ [] }
    ensures live { lives 1 ≡ false ∷ true ∷ false ∷ true ∷ false ∷ [] }
    ensures to_live { life_after [] ≡ Some 3 }
    ensures lives_on { life_after (event.Install 1 ∷ []) ≡ Some 3 }
    ensures lost { life_after (event.Crash 1 ∷ []) ≡ None }
{}

/// Messages of partition 1 and of the epochs 0 to 4. A node in no view counts those of its life to come, held
/// ones count, and after an install those of an earlier era or life don't.
pub fn row_of_counts()
    ensures unborn { counting 0 1 (back []) ≡ false ∷ false ∷ false ∷ true ∷ true ∷ [] }
    ensures born { counting 0 1 (back (event.Install 1 ∷ [])) ≡ false ∷ false ∷ false ∷ true ∷ true ∷ [] }
    ensures first_view { counting 1 0 (back []) ≡ false ∷ true ∷ true ∷ true ∷ true ∷ [] }
    ensures sender_dropped { counting 1 0 (back (event.Install 0 ∷ [])) ≡ false ∷ false ∷ false ∷ true ∷ true ∷ [] }
    ensures down { counting 0 1 (back (event.Crash 1 ∷ [])) ≡ false ∷ false ∷ false ∷ false ∷ false ∷ [] }
{}
