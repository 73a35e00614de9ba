//! Rows of steps that send as many lists as they may.

ghost use Rattle.std.specs.Prelude.{◌≡◌, [], None};
ghost use Rattle.pcl_base.specs.declared.message.Body.TheVariants as body;
ghost use Rattle.pcl_base.specs.declared.tx.Mode.TheVariants.{Shared};
ghost use Rattle.node_rules.specs.NodeState.{Begin, Install, Read};
ghost use Rattle.node_rules.specs.StepRows.{two};
ghost use Rattle.listing_laws.specs.Lists.{lists_by};
ghost use Rattle.listing_laws.specs.Rows.{lists_at, of_zero, newcomer, reader, from_zero, own_tx, busy};

/// Steps: an install reports each partition, a revocation is answered where there is a right, and a request
/// has no list.
pub fn row_of_steps()
    ensures install { lists_at newcomer (Install of_zero) ≡ 2 }
    ensures revocation { lists_at reader (from_zero (body.Revoke 0)) ≡ 1 }
    ensures no_right { lists_at newcomer (from_zero (body.Revoke 0)) ≡ 0 }
    ensures request { lists_at busy (Read own_tx 0) ≡ 0 }
{}

/// How many there are at most.
pub fn row_of_counts()
    ensures install { lists_by two (Install of_zero) ≡ 2 }
    ensures revocation { lists_by two (from_zero (body.Revoke 0)) ≡ 1 }
    ensures answer { lists_by two (from_zero (body.Return (record { page = 1; readers = [] }))) ≡ 0 }
    ensures begin { lists_by two Begin ≡ 0 }
{}
