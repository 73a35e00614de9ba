//! Rows of what was asked for.

ghost use Rattle.std.specs.Prelude.{◌≡◌, ◌∷◌, [], Some, None};
ghost use Rattle.pcl_base.specs.declared.event.Event.TheVariants as event;
ghost use Rattle.cluster_rules.specs.ClusterRows.{t1, t2};
ghost use Rattle.cluster_laws.specs.Ask.AskRows.{asked_by, writes, WaitsAfter};

/// The last access that a transaction asked for: not what was refused, nor what another one asked for.
pub fn row_of_asked()
    ensures written { asked_by t1 (writes []) ≡ Some (0, 7 ∷ []) }
    ensures by_another { asked_by t2 (writes []) ≡ None }
    ensures refused { asked_by t1 (writes (event.Write t1 0 3 (8 ∷ []) ∷ [])) ≡ Some (0, 7 ∷ []) }
    ensures granted { asked_by t1 (writes (event.Deliver 0 1 ∷ event.Deliver 1 0 ∷ event.Write t1 0 3 (8 ∷ []) ∷ [])) ≡ Some (3, 8 ∷ []) }
    ensures read { asked_by t1 (writes (event.Deliver 0 1 ∷ event.Deliver 1 0 ∷ event.Read t1 0 ∷ [])) ≡ None }
    ensures waits { WaitsAfter t1 (writes []) }
{}
