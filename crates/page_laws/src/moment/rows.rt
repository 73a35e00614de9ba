//! Computed rows of small traces, each as the clause of an empty function.

ghost use Rattle.std.specs.Prelude.{◌≡◌, [], ◌∷◌, Some, None};
ghost use Rattle.pcl_base.specs.declared.event.Event.TheVariants as event;
ghost use Rattle.pcl_base.specs.declared.reply.Reply.TheVariants as reply;
ghost use Rattle.pcl_base.specs.declared.trace.Call.TheVariants.{Force};
ghost use Rattle.run_rules.specs.Examples.{tx, one_page, plain_path, read_before_write, kept_commit};
ghost use Rattle.run_rules.specs.Now.{now};
ghost use Rattle.run_rules.specs.Script.{Asks, Writes, Commits, moments};
ghost use Rattle.page_protocol.specs.Bytes.{Read, Write};
ghost use Rattle.page_laws.specs.Moment.Commit.{committed_page};
ghost use Rattle.page_laws.specs.Moment.Looks.{accesses_in, asked_last, HasPage, with_entry, with_halt};

/// The granted accesses of a transaction by page, and the access that it asked for last.
pub fn row_of_accesses()
    ensures written_and_read { accesses_in (tx 0 1) 0 plain_path ≡ Write 2 (190 ∷ 239 ∷ []) ∷ Read (0 ∷ 0 ∷ 190 ∷ 239 ∷ 0 ∷ 0 ∷ 0 ∷ 0 ∷ []) ∷ [] }
    ensures other_transaction { accesses_in (tx 0 2) 0 plain_path ≡ Read (0 ∷ 0 ∷ 190 ∷ 239 ∷ 0 ∷ 0 ∷ 0 ∷ 0 ∷ []) ∷ [] }
    ensures other_page { accesses_in (tx 0 1) 1 plain_path ≡ [] }
    ensures granted_later { accesses_in (tx 0 1) 1 kept_commit ≡ Write 0 (7 ∷ []) ∷ [] }
    ensures asked_to_read { asked_last (tx 0 1) plain_path ≡ None }
    ensures asked_to_write { asked_last (tx 0 1) kept_commit ≡ Some (0, 7 ∷ []) }
    ensures answered { moments (with_entry [] (event.Write (tx 0 1) 1 0 (7 ∷ [])) (reply.Done (tx 0 1) 1 4 ∷ []) []) ≡ Asks (tx 0 1) (Some (0, 7 ∷ [])) ∷ Writes (tx 0 1) 1 4 ∷ [] }
    ensures halted { moments (with_halt [] (event.Commit (tx 0 1)) [] (record { call = Force; kept = Some (tx 0 1) })) ≡ Commits (tx 0 1) ∷ [] }
{}

/// What commits have made of a page.
pub fn row_of_now()
    ensures has { HasPage (now one_page plain_path) 0 (record { version = 1; bytes = 0 ∷ 0 ∷ 190 ∷ 239 ∷ 0 ∷ 0 ∷ 0 ∷ 0 ∷ [] }) }
    ensures has_no_result { HasPage (now one_page read_before_write) 0 (record { version = 1; bytes = 7 ∷ 0 ∷ 0 ∷ 0 ∷ 0 ∷ 0 ∷ 0 ∷ 0 ∷ [] }) → ⊥ }
    ensures written { committed_page (Read (1 ∷ []) ∷ Write 0 (2 ∷ []) ∷ []) 4 (2 ∷ []) ≡ record { version = 5; bytes = 2 ∷ [] } }
    ensures only_read { committed_page (Read (1 ∷ []) ∷ []) 4 (1 ∷ []) ≡ record { version = 4; bytes = 1 ∷ [] } }
{}
