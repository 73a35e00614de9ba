//! Worked inputs: stops, and planned moves.

ghost use Rattle.replay_rules.specs.Inputs.{Replays};
ghost use Rattle.replay_rules.specs.Moves.{stop_in_force_j36, kept_commit_is_named, planned_move};

/// Stop in force j36.
pub fn row_of_stop_in_force_j36()
    ensures { Replays stop_in_force_j36 }
{}

/// A stop at the force of a commit keeps the whole record, and the entry names the transaction.
pub fn row_of_kept_commit_is_named()
    ensures { Replays kept_commit_is_named }
{}

/// Planned move.
pub fn row_of_planned_move()
    ensures { Replays planned_move }
{}
