//! Rows of calls on a log.

ghost use Rattle.std.specs.Prelude.{◌≡◌, ◌∷◌, [], true};
ghost use Rattle.pcl_base.specs.declared.event.Event.TheVariants as event;
ghost use Rattle.pcl_base.specs.declared.trace.Call.TheVariants as call;
ghost use Rattle.node_rules.specs.DiskCalls.{WritePage, TrimLog, CutLog};
ghost use Rattle.node_rules.specs.NodeState.{Commit, Cut};
ghost use Rattle.cluster_rules.specs.ClusterRows.{t1, commits};
ghost use Rattle.cluster_laws.specs.Call.Calls.{log_by};
ghost use Rattle.cluster_laws.specs.Call.CallRows.{calls_after, words_after, at_install, torn, stored, NoRecordIsPage};

/// A commit forces its record where it wrote; the install of a node's birth trims a torn rest, where there is
/// one; a cut cuts what is on disk; and a refused event makes no call.
pub fn row_of_calls()
    ensures written { words_after (Commit t1) (event.Begin 0 ∷ event.Write t1 0 0 (7 ∷ []) ∷ []) ≡ call.Force ∷ [] }
    ensures read { words_after (Commit t1) (event.Begin 0 ∷ event.Read t1 0 ∷ []) ≡ [] }
    ensures torn_rest { at_install torn ≡ TrimLog 0 ∷ [] }
    ensures no_rest { at_install stored ≡ [] }
    ensures no_birth { at_install (event.View (true ∷ true ∷ []) (1 ∷ 1 ∷ []) ∷ []) ≡ [] }
    ensures on_disk { calls_after Cut (commits (event.Flush 0 0 ∷ [])) ≡ CutLog 36 ∷ [] }
    ensures not_on_disk { calls_after Cut (commits []) ≡ [] }
    ensures refused { calls_after Cut stored ≡ [] }
{}

/// A log after each kind of call.
pub fn row_of_logs()
    ensures page { log_by (1 ∷ 2 ∷ 3 ∷ []) (WritePage 0 (9 ∷ [])) ≡ 1 ∷ 2 ∷ 3 ∷ [] }
    ensures trim { log_by (1 ∷ 2 ∷ 3 ∷ []) (TrimLog 1) ≡ 1 ∷ [] }
    ensures cut { log_by (1 ∷ 2 ∷ 3 ∷ []) (CutLog 1) ≡ 2 ∷ 3 ∷ [] }
    ensures no_page { NoRecordIsPage }
{}
