//! Rows: what the definitions compute to on scripts and traces, as the clauses of empty functions.

ghost use Rattle.std.specs.Prelude.{◌≡◌, ℕ, List, [], ◌∷◌, None, Some, Ok, Err};
ghost use Rattle.pcl_base.specs.declared.script.Step.TheVariants.{Read, Write};
ghost use Rattle.run_rules.specs.Base.{BasePage, Base, first_base, page_at, put_over};
ghost use Rattle.run_rules.specs.Script.{moments, script};
ghost use Rattle.run_rules.specs.Running.{Difference, SerialDifference, run_script, run_scripts};
ghost use Rattle.run_rules.specs.Now.{now};
ghost use Rattle.run_rules.specs.Serial.{serial, serial_fault};
ghost use Rattle.run_rules.specs.Fresh.{fresh_fault};
ghost use Rattle.run_rules.specs.Examples.{tx, small_base, one_page, two_nodes, plain_path};
ghost use Rattle.run_rules.specs.Examples.{image_with_release, written_page, changed_page};
ghost use Rattle.run_rules.specs.Examples.{read_before_write, kept_commit};

/// A base at its start, and bytes put over a page.
pub fn rows_of_base()
    ensures first { page_at (first_base two_nodes) 3 ≡ record { version = 0; bytes = 0 ∷ 0 ∷ 0 ∷ 0 ∷ 0 ∷ 0 ∷ 0 ∷ 0 ∷ [] } }
    ensures put { put_over 1 (8 ∷ 9 ∷ []) (1 ∷ 2 ∷ 3 ∷ 4 ∷ []) ≡ 1 ∷ 8 ∷ 9 ∷ 4 ∷ [] }
{}

/// Running scripts on a base of two pages of two bytes.
pub fn rows_of_running()
    ensures written { run_script small_base (Write 1 0 (5 ∷ []) ∷ Write 1 1 (6 ∷ []) ∷ Read 1 (5 ∷ 6 ∷ []) ∷ Read 0 (1 ∷ 2 ∷ []) ∷ [])
        ≡ Ok (record { version = 4; bytes = 1 ∷ 2 ∷ [] } ∷ record { version = 8; bytes = 5 ∷ 6 ∷ [] } ∷ []) }
    ensures differs { run_script small_base (Read 0 (1 ∷ 2 ∷ []) ∷ Write 0 0 (5 ∷ []) ∷ Read 0 (1 ∷ 2 ∷ []) ∷ Read 1 [] ∷ [])
        ≡ Err (record { place = 2; expected = 5 ∷ 2 ∷ [] }) }
    ensures two_scripts { run_scripts small_base ((Write 0 0 (5 ∷ []) ∷ []) ∷ (Read 0 (5 ∷ 2 ∷ []) ∷ Write 0 1 (6 ∷ []) ∷ []) ∷ [])
        ≡ Ok (record { version = 6; bytes = 5 ∷ 6 ∷ [] } ∷ record { version = 7; bytes = 3 ∷ 4 ∷ [] } ∷ []) }
    ensures second_differs { run_scripts small_base ((Write 0 0 (5 ∷ []) ∷ []) ∷ (Read 1 (3 ∷ 4 ∷ []) ∷ Read 0 (1 ∷ 2 ∷ []) ∷ []) ∷ [])
        ≡ Err (record { script = 1; place = 1 }) }
{}

/// The script of a transaction, the serial order, and what the commits have made.
pub fn rows_of_traces()
    ensures script { script (tx 0 1) (moments plain_path)
        ≡ Write 0 2 (190 ∷ 239 ∷ []) ∷ Read 0 (0 ∷ 0 ∷ 190 ∷ 239 ∷ 0 ∷ 0 ∷ 0 ∷ 0 ∷ []) ∷ [] }
    ensures refused { script (tx 0 1) (moments kept_commit) ≡ Write 1 0 (7 ∷ []) ∷ [] }
    ensures kept { serial kept_commit ≡ tx 0 1 ∷ [] }
    ensures order { serial read_before_write ≡ tx 0 2 ∷ tx 0 1 ∷ [] }
    ensures now { now one_page plain_path
        ≡ Some (record { version = 1; bytes = 0 ∷ 0 ∷ 190 ∷ 239 ∷ 0 ∷ 0 ∷ 0 ∷ 0 ∷ [] } ∷ []) }
    ensures no_result { now one_page read_before_write ≡ None }
{}

/// The first faults by *fresh* and by *serial*.
pub fn rows_of_faults()
    ensures plain_path_is_fresh { fresh_fault one_page plain_path ≡ None }
    ensures plain_path_is_serial { serial_fault one_page plain_path ≡ None }
    ensures right_value_is_fresh { fresh_fault two_nodes (image_with_release written_page) ≡ None }
    ensures right_value_is_serial { serial_fault two_nodes (image_with_release written_page) ≡ None }
    ensures changed_value_is_not_fresh { fresh_fault two_nodes (image_with_release changed_page) ≡ Some 8 }
    ensures changed_value_is_not_serial { serial_fault two_nodes (image_with_release changed_page) ≡ Some 9 }
    ensures old_read_is_fresh { fresh_fault one_page read_before_write ≡ None }
    ensures old_read_is_not_serial { serial_fault one_page read_before_write ≡ Some 6 }
{}
