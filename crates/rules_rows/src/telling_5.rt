//! Worked schedules: telling 5.

ghost use Rattle.rules_rows.specs.Schedules.{ReadsAs, Prints, StaysSafe};
ghost use Rattle.rules_rows.specs.Telling5.{telling_no_trim, telling_own_log_alone, telling_own_report_without_right_readers, telling_redo_leaves_dirty};

/// Telling no trim.
pub fn row_of_telling_no_trim()
    ensures read { ReadsAs telling_no_trim }
    ensures printed { Prints telling_no_trim }
    ensures safe { StaysSafe telling_no_trim }
{}

/// Telling own log alone.
pub fn row_of_telling_own_log_alone()
    ensures read { ReadsAs telling_own_log_alone }
    ensures printed { Prints telling_own_log_alone }
    ensures safe { StaysSafe telling_own_log_alone }
{}

/// Telling own report without right readers.
pub fn row_of_telling_own_report_without_right_readers()
    ensures read { ReadsAs telling_own_report_without_right_readers }
    ensures printed { Prints telling_own_report_without_right_readers }
    ensures safe { StaysSafe telling_own_report_without_right_readers }
{}

/// Telling redo leaves dirty.
pub fn row_of_telling_redo_leaves_dirty()
    ensures read { ReadsAs telling_redo_leaves_dirty }
    ensures printed { Prints telling_redo_leaves_dirty }
    ensures safe { StaysSafe telling_redo_leaves_dirty }
{}
