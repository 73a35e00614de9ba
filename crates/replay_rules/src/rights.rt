//! Worked inputs: copies, rights and buffers.

ghost use Rattle.replay_rules.specs.Inputs.{Replays};
ghost use Rattle.replay_rules.specs.Rights.{stale_then_current_copy, revocation_with_open_reader, no_frame, flush_cut_evict};

/// Stale then current copy.
pub fn row_of_stale_then_current_copy()
    ensures { Replays stale_then_current_copy }
{}

/// Revocation with open reader.
pub fn row_of_revocation_with_open_reader()
    ensures { Replays revocation_with_open_reader }
{}

/// No frame.
pub fn row_of_no_frame()
    ensures { Replays no_frame }
{}

/// Flush cut evict.
pub fn row_of_flush_cut_evict()
    ensures { Replays flush_cut_evict }
{}
