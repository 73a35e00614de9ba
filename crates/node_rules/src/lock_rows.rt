//! Rows of the lock rule.

ghost use Rattle.std.specs.Prelude.{◌≡◌, ◌∷◌, [], true, false, Some, None};
ghost use Rattle.pcl_base.specs.declared.tx.Mode.TheVariants.{Shared, Exclusive};
ghost use Rattle.pcl_base.specs.declared.lock.Decision.TheVariants.{Grant, Revoke};
ghost use Rattle.node_rules.specs.LockRule.{idle, ask, end_tx, takes_change, returned, reported, reported_right, purge, settle};
ghost use Rattle.node_rules.specs.LockRows.{a, b, c, reads, writes, to_read, to_write, may, revoked, at_five};

/// Node 0 owns the page, and decides on those that wait.
pub fn row_of_settling()
    ensures own { settle 0 (at_five [] [] (to_read a ∷ []))
        ≡ record { decisions = Grant a Shared false None ∷ []; entry = at_five (reads a ∷ []) [] [] } }
    ensures right { settle 0 (at_five (reads a ∷ []) [] (to_read b ∷ []))
        ≡ record { decisions = Grant b Shared true None ∷ []; entry = at_five (reads a ∷ []) (may 1 ∷ []) [] } }
    ensures no_right_beside_a_writer { settle 0 (at_five [] [] (to_read b ∷ to_write c ∷ []))
        ≡ record {
          decisions = Grant b Shared false None ∷ [];
          entry = at_five (reads b ∷ []) [] (to_write c ∷ []);
        } }
    ensures revokes_first { settle 0 (at_five [] (may 1 ∷ revoked 2 ∷ []) (to_write a ∷ []))
        ≡ record {
          decisions = Revoke 1 ∷ [];
          entry = at_five [] (revoked 1 ∷ revoked 2 ∷ []) (to_write a ∷ []);
        } }
    ensures upgrade_goes_first { settle 0 (at_five (reads b ∷ []) [] (to_write c ∷ to_write b ∷ []))
        ≡ record {
          decisions = Grant b Exclusive false (Some 4) ∷ [];
          entry = at_five (writes b ∷ []) [] (to_write c ∷ []);
        } }
    ensures upgrade_waits_for_readers { settle 0 (at_five (reads a ∷ reads b ∷ []) [] (to_write b ∷ []))
        ≡ record { decisions = []; entry = at_five (reads a ∷ reads b ∷ []) [] (to_write b ∷ []) } }
    ensures all_readers { settle 0 (at_five [] [] (to_read a ∷ to_read b ∷ to_read c ∷ []))
        ≡ record {
          decisions = Grant a Shared false None ∷ Grant b Shared true None ∷ Grant c Shared true None ∷ [];
          entry = at_five (reads a ∷ []) (may 1 ∷ may 2 ∷ []) [];
        } }
    ensures nobody_passes { settle 0 (at_five (writes a ∷ []) [] (to_read b ∷ to_read c ∷ []))
        ≡ record { decisions = []; entry = at_five (writes a ∷ []) [] (to_read b ∷ to_read c ∷ []) } }
{}

/// What requests, ends, returns, reports and purges change.
pub fn row_of_changes()
    ensures asks { ask (at_five [] [] []) (to_read b) ≡ at_five [] [] (to_read b ∷ []) }
    ensures asks_once { ask (at_five [] [] (to_read b ∷ [])) (to_write b) ≡ at_five [] [] (to_read b ∷ []) }
    ensures asks_less { ask (at_five (writes b ∷ []) [] []) (to_read b) ≡ at_five (writes b ∷ []) [] [] }
    ensures asks_more { ask (at_five (reads b ∷ []) [] []) (to_write b) ≡ at_five (reads b ∷ []) [] (to_write b ∷ []) }
    ensures writer_ends { end_tx (at_five (writes b ∷ []) [] (to_read c ∷ [])) b (Some 6)
        ≡ record (at_five [] [] (to_read c ∷ [])) { version = 6 } }
    ensures late_change { end_tx (at_five (writes b ∷ []) [] []) b (Some 5) ≡ at_five [] [] [] }
    ensures early_change { takes_change (at_five (writes b ∷ []) [] []) b (Some 7) ≡ false }
    ensures reader_changes_nothing { takes_change (at_five (reads b ∷ []) [] []) b (Some 6) ≡ false }
    ensures ends_everywhere { end_tx (at_five (reads b ∷ reads c ∷ []) [] (to_write b ∷ [])) b None ≡ at_five (reads c ∷ []) [] [] }
    ensures returns_readers { returned (at_five [] (revoked 1 ∷ may 2 ∷ []) (to_write a ∷ [])) 1 (b ∷ [])
        ≡ at_five (reads b ∷ []) (may 2 ∷ []) (to_write a ∷ []) }
    ensures returns_nothing { returned (at_five [] (may 2 ∷ []) []) 1 (b ∷ []) ≡ at_five [] (may 2 ∷ []) [] }
    ensures reports { reported (at_five (reads a ∷ []) [] []) b Exclusive ≡ at_five (reads a ∷ writes b ∷ []) [] [] }
    ensures reports_once { reported (at_five (reads b ∷ []) [] []) b Exclusive ≡ at_five (reads b ∷ []) [] [] }
    ensures reports_right { reported_right (at_five [] (may 1 ∷ []) []) 2 ≡ at_five [] (may 1 ∷ may 2 ∷ []) [] }
    ensures purges { purge (at_five (reads a ∷ reads b ∷ []) (may 1 ∷ may 2 ∷ []) (to_write c ∷ to_write b ∷ [])) (true ∷ false ∷ true ∷ [])
        ≡ at_five (reads a ∷ []) (may 2 ∷ []) (to_write c ∷ []) }
{}
