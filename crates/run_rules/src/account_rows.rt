//! Rows of redo, durable and the account.

ghost use Rattle.std.specs.Prelude.{◌≡◌, ◌∷◌, ◌++◌, [], true, false, Some, None};
ghost use Rattle.pcl_base.specs.declared.log.Part.TheVariants.{Image};
ghost use Rattle.run_rules.specs.Account.{account_fault};
ghost use Rattle.run_rules.specs.Disk.{fresh_disk};
ghost use Rattle.run_rules.specs.Durable.{durable_fault};
ghost use Rattle.run_rules.specs.Examples.{one_page, two_nodes, plain_path, image_with_release, written_page};
ghost use Rattle.run_rules.specs.Redo.{redone, greatest, redo};
ghost use Rattle.run_rules.specs.AccountRows.{at_version, changed, one_byte, one_record, other_log, asks, granted, grants, reads, released, ends, begins, revoked, writes, returned, answers, asks_to_write, granted_to_write, ends_as};
ghost use Rattle.run_rules.specs.Examples.{tx};
ghost use Rattle.pcl_base.specs.declared.event.Event.TheVariants.{Commit, Abort};
ghost use Rattle.pcl_base.specs.declared.reply.Reply.TheVariants.{Committed, Aborted};

/// What the logs make of a page.
pub fn row_of_redo()
    ensures ranges_follow { redone (changed 1 3 (one_byte 1 9) ∷ changed 1 2 (one_byte 0 8) ∷ []) 1 (at_version 1 (5 ∷ 6 ∷ [])) ≡ at_version 3 (8 ∷ 9 ∷ []) }
    ensures gap { redone (changed 1 3 (one_byte 1 9) ∷ []) 1 (at_version 1 (5 ∷ 6 ∷ [])) ≡ at_version 1 (5 ∷ 6 ∷ []) }
    ensures first_of_equals { redone (changed 1 2 (one_byte 1 9) ∷ changed 1 2 (one_byte 0 8) ∷ []) 1 (at_version 1 (5 ∷ 6 ∷ [])) ≡ at_version 2 (5 ∷ 9 ∷ []) }
    ensures greatest_image { redone (changed 1 4 (Image (3 ∷ 4 ∷ [])) ∷ changed 1 2 (Image (1 ∷ 2 ∷ [])) ∷ changed 1 5 (one_byte 0 8) ∷ []) 1 (at_version 1 (5 ∷ 6 ∷ [])) ≡ at_version 5 (8 ∷ 4 ∷ []) }
    ensures old_image { redone (changed 1 4 (Image (3 ∷ 4 ∷ [])) ∷ []) 1 (at_version 4 (5 ∷ 6 ∷ [])) ≡ at_version 4 (5 ∷ 6 ∷ []) }
    ensures other_page { redone (changed 2 2 (one_byte 0 8) ∷ []) 1 (at_version 1 (5 ∷ 6 ∷ [])) ≡ at_version 1 (5 ∷ 6 ∷ []) }
    ensures newest { greatest (changed 1 3 (one_byte 1 9) ∷ changed 1 2 (one_byte 0 8) ∷ []) 1 ≡ 3 }
    ensures every_log { redo two_nodes other_log 1 ≡ Some (at_version 1 (9 ∷ 0 ∷ 0 ∷ 0 ∷ 0 ∷ 0 ∷ 0 ∷ 0 ∷ [])) }
    ensures durable { durable_fault one_page plain_path one_record ≡ None }
    ensures lost { durable_fault one_page plain_path (fresh_disk one_page) ≡ Some 0 }
{}

/// Messages with their causes, and the first entry with one that has none.
pub fn row_of_account()
    ensures image_with_release { account_fault two_nodes (image_with_release written_page) ≡ None }
    ensures lock { account_fault two_nodes (asks ++ grants (granted false ∷ []) ++ reads ++ ends (released ∷ [])) ≡ None }
    ensures grant_unasked { account_fault two_nodes (begins (granted false ∷ [])) ≡ Some 1 }
    ensures grant_twice { account_fault two_nodes (asks ++ grants (granted false ∷ granted false ∷ [])) ≡ Some 3 }
    ensures release_twice { account_fault two_nodes (asks ++ grants (granted false ∷ []) ++ reads ++ ends (released ∷ released ∷ [])) ≡ Some 5 }
    ensures release_under_right { account_fault two_nodes (asks ++ grants (granted true ∷ []) ++ reads ++ ends (released ∷ [])) ≡ Some 5 }
    ensures release_before { account_fault two_nodes (asks ++ grants (released ∷ [])) ≡ Some 3 }
    ensures rights { account_fault two_nodes (asks ++ grants (granted true ∷ []) ++ reads ++ begins [] ++ writes (revoked ∷ []) ++ answers (returned ∷ []) ++ ends (released ∷ [])) ≡ None }
    ensures revoke_without_writer { account_fault two_nodes (asks ++ grants (granted true ∷ []) ++ reads ++ begins (revoked ∷ [])) ≡ Some 5 }
    ensures revoke_without_right { account_fault two_nodes (asks ++ grants (granted false ∷ []) ++ reads ++ begins [] ++ writes (revoked ∷ [])) ≡ Some 6 }
    ensures revoke_twice { account_fault two_nodes (asks ++ grants (granted true ∷ []) ++ reads ++ begins [] ++ writes (revoked ∷ revoked ∷ [])) ≡ Some 6 }
    ensures answer_twice { account_fault two_nodes (asks ++ grants (granted true ∷ []) ++ reads ++ begins [] ++ writes (revoked ∷ []) ++ answers (returned ∷ returned ∷ [])) ≡ Some 7 }
    ensures revoke_for_another { account_fault two_nodes (asks ++ grants (granted true ∷ []) ++ reads ++ asks_to_write (revoked ∷ [])) ≡ None }
    ensures revoke_and_grant { account_fault two_nodes (asks ++ grants (granted true ∷ []) ++ reads ++ asks_to_write (revoked ∷ granted_to_write ∷ [])) ≡ Some 7 }
    ensures commit_as_commit { account_fault two_nodes (asks ++ ends_as (Commit (tx 0 1)) (Committed (tx 0 1))) ≡ None }
    ensures abort_as_abort { account_fault two_nodes (asks ++ ends_as (Abort (tx 0 1)) (Aborted (tx 0 1))) ≡ None }
    ensures commit_as_abort { account_fault two_nodes (asks ++ ends_as (Commit (tx 0 1)) (Aborted (tx 0 1))) ≡ Some 3 }
    ensures abort_as_commit { account_fault two_nodes (asks ++ ends_as (Abort (tx 0 1)) (Committed (tx 0 1))) ≡ Some 3 }
    ensures answer_unasked { account_fault two_nodes (asks ++ grants (granted true ∷ []) ++ reads ++ ends (returned ∷ [])) ≡ Some 5 }
{}
