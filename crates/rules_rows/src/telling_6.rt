//! Worked schedules: telling 6.

ghost use Rattle.rules_rows.specs.Schedules.{ReadsAs, Prints, StaysSafe};
ghost use Rattle.rules_rows.specs.Telling6.{telling_report_without_locks, telling_report_without_rights, telling_return_without_readers, telling_right_kept_after_return};

/// Telling report without locks.
pub fn row_of_telling_report_without_locks()
    ensures read { ReadsAs telling_report_without_locks }
    ensures printed { Prints telling_report_without_locks }
    ensures safe { StaysSafe telling_report_without_locks }
{}

/// Telling report without rights.
pub fn row_of_telling_report_without_rights()
    ensures read { ReadsAs telling_report_without_rights }
    ensures printed { Prints telling_report_without_rights }
    ensures safe { StaysSafe telling_report_without_rights }
{}

/// Telling return without readers.
pub fn row_of_telling_return_without_readers()
    ensures read { ReadsAs telling_return_without_readers }
    ensures printed { Prints telling_return_without_readers }
    ensures safe { StaysSafe telling_return_without_readers }
{}

/// Telling right kept after return.
pub fn row_of_telling_right_kept_after_return()
    ensures read { ReadsAs telling_right_kept_after_return }
    ensures printed { Prints telling_right_kept_after_return }
    ensures safe { StaysSafe telling_right_kept_after_return }
{}
