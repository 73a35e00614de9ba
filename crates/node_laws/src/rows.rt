//! Rows: nodes that aren't sound for one thing alone, and messages and calls that none of them makes.

ghost use Rattle.std.specs.Prelude.{◌∷◌, [], true, Some, None};
ghost use Rattle.pcl_base.specs.declared.message.Body.TheVariants as body;
ghost use Rattle.run_rules.specs.Views.{first};
ghost use Rattle.node_rules.specs.DiskCalls.{WritePage};
ghost use Rattle.node_rules.specs.LockRule.{idle};
ghost use Rattle.node_rules.specs.LockTable.{open_table};
ghost use Rattle.node_rules.specs.NodeState.{Deliver, Install, put_table};
ghost use Rattle.node_laws.specs.Nodes.{IsSound, CanCome, IsSend, IsCall};
ghost use Rattle.node_laws.specs.Rows.{two, zero_node, tx_of, right, with_rights, with_entry, with_less, with_one_flag, held_by_one, waited_by_one, read_by_one, in_another, without_zero, second_view, born_in, busy_in_none, sent, zeros};

/// Tables: there is one exactly where the node owns the partition, and its entries are of pages of the
/// partition, with transactions and nodes that may be.
pub fn row_of_tables()
    ensures no_own_table { IsSound (put_table zero_node 0 None) → ⊥ }
    ensures table_of_another { IsSound (put_table zero_node 1 (Some (open_table two 1 true))) → ⊥ }
    ensures page_of_another { IsSound (with_entry 1 (idle 0)) → ⊥ }
    ensures page_past_the_end { IsSound (with_entry 4 (idle 0)) → ⊥ }
    ensures page_left_out { IsSound with_less → ⊥ }
    ensures flag_left_out { IsSound with_one_flag → ⊥ }
    ensures holder_of_no_node { IsSound (with_entry 0 (held_by_one (tx_of 2))) → ⊥ }
    ensures waiter_of_no_node { IsSound (with_entry 0 (waited_by_one (tx_of 2))) → ⊥ }
    ensures right_of_its_own { IsSound (with_entry 0 (read_by_one 0)) → ⊥ }
    ensures right_of_no_node { IsSound (with_entry 0 (read_by_one 2)) → ⊥ }
{}

/// Rights: each is of a page of the database, alone, and its readers are different transactions.
pub fn row_of_rights()
    ensures past_the_end { IsSound (with_rights (right 4 [] ∷ [])) → ⊥ }
    ensures two_of_a_page { IsSound (with_rights (right 1 [] ∷ right 1 [] ∷ [])) → ⊥ }
    ensures one_reader_twice { IsSound (with_rights (right 1 (tx_of 0 ∷ tx_of 0 ∷ []) ∷ [])) → ⊥ }
{}

/// Views: the node is live and born in its view, at the view's epoch, and has no transaction in none.
pub fn row_of_views()
    ensures not_live { IsSound (in_another without_zero) → ⊥ }
    ensures another_epoch { IsSound (in_another second_view) → ⊥ }
    ensures another_birth { IsSound (born_in 2) → ⊥ }
    ensures never_born { IsSound (born_in 0) → ⊥ }
    ensures busy_in_no_view { IsSound busy_in_none → ⊥ }
{}

/// What can't come, and what is neither sent nor written.
pub fn row_of_calls()
    ensures from_itself { CanCome zero_node (Deliver 0 (record { epoch = 1; body = body.Revoke 1 })) → ⊥ }
    ensures of_no_page { CanCome zero_node (Deliver 1 (record { epoch = 1; body = body.Revoke 4 })) → ⊥ }
    ensures without_the_node { CanCome zero_node (Install without_zero) → ⊥ }
    ensures to_itself { IsSend two 0 (sent 0 1 (body.Revoke 0)) → ⊥ }
    ensures to_no_node { IsSend two 0 (sent 2 1 (body.Revoke 0)) → ⊥ }
    ensures of_no_epoch { IsSend two 0 (sent 1 0 (body.Revoke 0)) → ⊥ }
    ensures past_the_end { IsCall two (WritePage 4 (zeros 24)) → ⊥ }
    ensures of_another_size { IsCall two (WritePage 0 (zeros 8)) → ⊥ }
{}
