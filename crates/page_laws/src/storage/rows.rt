//! Computed rows of a small storage, each as the clause of an empty function.

ghost use Rattle.std.specs.Prelude.{◌≡◌, [], ◌∷◌, Some, None};
ghost use Rattle.pcl_base.specs.declared.log.Part.TheVariants.{Image};
ghost use Rattle.node_rules.specs.DiskCalls.{WritePage, Force, TrimLog};
ghost use Rattle.run_rules.specs.Redo.{redo};
ghost use Rattle.page_laws.specs.Storage.Looks.{copy_on, ranges_of_part, ranges_in, log_of, AreRising, with_record, without, only};
ghost use Rattle.page_laws.specs.Storage.Rows.{small, tx, byte_of, page_at, stored, logs};
ghost use Rattle.page_laws.specs.Storage.Stored.{forced_by};

/// What is stored of the pages, and what redo makes of page 0.
pub fn row_of_stored_pages()
    ensures copy { copy_on stored 0 ≡ Some (record { version = 1; bytes = 7 ∷ 8 ∷ [] }) }
    ensures other_number { copy_on stored 1 ≡ None }
    ensures first { logs 0 2 ≡ Some ((1, 9 ∷ []) ∷ []) }
    ensures behind { logs 0 4 ≡ Some ((0, 5 ∷ []) ∷ []) }
    ensures other_log { logs 0 3 ≡ None }
    ensures of_node_1 { logs 1 3 ≡ Some ((0, 3 ∷ []) ∷ []) }
    ensures torn { logs 1 5 ≡ None }
    ensures other_page { log_of small stored 0 1 1 ≡ Some ((0, 6 ∷ []) ∷ []) }
    ensures whole_page { ranges_of_part (Image (1 ∷ 2 ∷ [])) ≡ (0, 1 ∷ 2 ∷ []) ∷ [] }
    ensures first_of_two { ranges_in (byte_of 0 2 1 9 ∷ byte_of 0 2 0 5 ∷ []) 2 ≡ Some ((1, 9 ∷ []) ∷ []) }
    ensures redone { redo small stored 0 ≡ Some (record { version = 4; bytes = 5 ∷ 9 ∷ [] }) }
{}

/// Logs with a record more, without those of a cut, and the logs of some nodes.
pub fn row_of_changed_logs()
    ensures added { with_record logs 1 5 ((0, 4 ∷ []) ∷ []) 1 5 ≡ Some ((0, 4 ∷ []) ∷ []) }
    ensures others_stay { with_record logs 1 5 ((0, 4 ∷ []) ∷ []) 0 4 ≡ Some ((0, 5 ∷ []) ∷ []) }
    ensures cut { without logs 0 2 0 2 ≡ None }
    ensures left { without logs 0 2 0 4 ≡ Some ((0, 5 ∷ []) ∷ []) }
    ensures other_node { without logs 0 4 1 3 ≡ Some ((0, 3 ∷ []) ∷ []) }
    ensures among { only (1 ∷ []) logs 1 3 ≡ Some ((0, 3 ∷ []) ∷ []) }
    ensures not_among { only (1 ∷ []) logs 0 2 ≡ None }
    ensures forced { forced_by (WritePage 0 [] ∷ Force (tx 1) [] ∷ TrimLog 0 ∷ []) ≡ Some (tx 1) }
{}

/// Versions rise strictly, from above the first bound on, and whole pages aren't among them.
pub fn row_of_rising()
    ensures rises { AreRising 1 (byte_of 0 2 0 5 ∷ byte_of 0 4 0 5 ∷ []) }
    ensures bound { AreRising 2 (byte_of 0 2 0 5 ∷ []) → ⊥ }
    ensures twice { AreRising 0 (byte_of 0 2 0 5 ∷ byte_of 0 2 1 9 ∷ []) → ⊥ }
    ensures whole { AreRising 0 (page_at 2 (1 ∷ 2 ∷ []) ∷ []) → ⊥ }
{}
