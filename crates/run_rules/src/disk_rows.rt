//! Rows of redo and durable, as the clauses of empty functions.

ghost use Rattle.std.specs.Prelude.{◌≡◌, ◌∷◌, ◌++◌, [], None, Some, take, drop, length};
ghost use Rattle.text_rules.specs.LogRecord.{record_bytes};
ghost use Rattle.text_rules.specs.StoredPage.{PageAt};
ghost use Rattle.run_rules.specs.Disk.{fresh_disk};
ghost use Rattle.run_rules.specs.Redo.{redo};
ghost use Rattle.run_rules.specs.Durable.{durable_fault};
ghost use Rattle.run_rules.specs.DiskRows.{plain_record, one_disk, unwritten_page, stored_at, two_logs};
ghost use Rattle.run_rules.specs.Examples.{one_page, two_nodes, plain_path};

/// What redo makes of stored pages and logs.
pub fn rows_of_redo()
    ensures fresh { redo one_page (fresh_disk one_page) 0 ≡ Some (record { version = 0; bytes = 0 ∷ 0 ∷ 0 ∷ 0 ∷ 0 ∷ 0 ∷ 0 ∷ 0 ∷ [] }) }
    ensures two_logs { redo two_nodes two_logs 0 ≡ Some (record { version = 4; bytes = 3 ∷ 4 ∷ 3 ∷ 3 ∷ 3 ∷ 3 ∷ 3 ∷ 3 ∷ [] }) }
    ensures wrong_number { redo one_page (one_disk (7 ∷ drop 1 (stored_at 1)) []) 0 ≡ None }
{}

/// The storage of the plain path, and storages that miss something of it.
pub fn rows_of_durable()
    ensures record { durable_fault one_page plain_path (one_disk unwritten_page (record_bytes plain_record)) ≡ None }
    ensures stored { durable_fault one_page plain_path (one_disk (stored_at 1) []) ≡ None }
    ensures both { durable_fault one_page plain_path (one_disk (stored_at 1) (record_bytes plain_record)) ≡ None }
    ensures nothing { durable_fault one_page plain_path (fresh_disk one_page) ≡ Some 0 }
    ensures torn { durable_fault one_page plain_path (one_disk unwritten_page (take 36 (record_bytes plain_record))) ≡ Some 0 }
    ensures too_new { durable_fault one_page plain_path (one_disk (stored_at 2) []) ≡ Some 0 }
{}
