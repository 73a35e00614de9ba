//! Worked schedules: paths 2.

ghost use Rattle.rules_rows.specs.Schedules.{ReadsAs, Prints, StaysSafe};
ghost use Rattle.rules_rows.specs.Paths2.{refusals, image_goes_with_release, stale_then_current_copy};

/// Refusals.
pub fn row_of_refusals()
    ensures read { ReadsAs refusals }
    ensures printed { Prints refusals }
    ensures safe { StaysSafe refusals }
{}

/// Image goes with release.
pub fn row_of_image_goes_with_release()
    ensures read { ReadsAs image_goes_with_release }
    ensures printed { Prints image_goes_with_release }
    ensures safe { StaysSafe image_goes_with_release }
{}

/// Stale then current copy.
pub fn row_of_stale_then_current_copy()
    ensures read { ReadsAs stale_then_current_copy }
    ensures printed { Prints stale_then_current_copy }
    ensures safe { StaysSafe stale_then_current_copy }
{}
