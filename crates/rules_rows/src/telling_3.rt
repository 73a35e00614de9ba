//! Worked schedules: telling 3.

ghost use Rattle.rules_rows.specs.Schedules.{ReadsAs, Prints, StaysSafe};
ghost use Rattle.rules_rows.specs.Telling3.{telling_move_keeps_dirty, telling_move_own_locks_unlisted};

/// Telling move keeps dirty.
pub fn row_of_telling_move_keeps_dirty()
    ensures read { ReadsAs telling_move_keeps_dirty }
    ensures printed { Prints telling_move_keeps_dirty }
    ensures safe { StaysSafe telling_move_keeps_dirty }
{}

/// Telling move own locks unlisted.
pub fn row_of_telling_move_own_locks_unlisted()
    ensures read { ReadsAs telling_move_own_locks_unlisted }
    ensures printed { Prints telling_move_own_locks_unlisted }
    ensures safe { StaysSafe telling_move_own_locks_unlisted }
{}
