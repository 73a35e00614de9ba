//! Worked schedules: telling 1.

ghost use Rattle.rules_rows.specs.Schedules.{ReadsAs, Prints, StaysSafe};
ghost use Rattle.rules_rows.specs.Telling1.{telling_current_to_every_copy, telling_cut_one_too_far, telling_dirty_at_home, telling_dirty_evicted_unwritten};

/// Telling current to every copy.
pub fn row_of_telling_current_to_every_copy()
    ensures read { ReadsAs telling_current_to_every_copy }
    ensures printed { Prints telling_current_to_every_copy }
    ensures safe { StaysSafe telling_current_to_every_copy }
{}

/// Telling cut one too far.
pub fn row_of_telling_cut_one_too_far()
    ensures read { ReadsAs telling_cut_one_too_far }
    ensures printed { Prints telling_cut_one_too_far }
    ensures safe { StaysSafe telling_cut_one_too_far }
{}

/// Telling dirty at home.
pub fn row_of_telling_dirty_at_home()
    ensures read { ReadsAs telling_dirty_at_home }
    ensures printed { Prints telling_dirty_at_home }
    ensures safe { StaysSafe telling_dirty_at_home }
{}

/// Telling dirty evicted unwritten.
pub fn row_of_telling_dirty_evicted_unwritten()
    ensures read { ReadsAs telling_dirty_evicted_unwritten }
    ensures printed { Prints telling_dirty_evicted_unwritten }
    ensures safe { StaysSafe telling_dirty_evicted_unwritten }
{}
