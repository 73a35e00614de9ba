//! Worked schedules: telling 2.

ghost use Rattle.rules_rows.specs.Schedules.{ReadsAs, Prints, StaysSafe};
ghost use Rattle.rules_rows.specs.Telling2.{telling_entry_keeps_version_at_redo, telling_exclusive_with_revocation, telling_kept_not_named, telling_late_grant_taken};

/// Telling entry keeps version at redo.
pub fn row_of_telling_entry_keeps_version_at_redo()
    ensures read { ReadsAs telling_entry_keeps_version_at_redo }
    ensures printed { Prints telling_entry_keeps_version_at_redo }
    ensures safe { StaysSafe telling_entry_keeps_version_at_redo }
{}

/// Telling exclusive with revocation.
pub fn row_of_telling_exclusive_with_revocation()
    ensures read { ReadsAs telling_exclusive_with_revocation }
    ensures printed { Prints telling_exclusive_with_revocation }
    ensures safe { StaysSafe telling_exclusive_with_revocation }
{}

/// Telling kept not named.
pub fn row_of_telling_kept_not_named()
    ensures read { ReadsAs telling_kept_not_named }
    ensures printed { Prints telling_kept_not_named }
    ensures safe { StaysSafe telling_kept_not_named }
{}

/// Telling late grant taken.
pub fn row_of_telling_late_grant_taken()
    ensures read { ReadsAs telling_late_grant_taken }
    ensures printed { Prints telling_late_grant_taken }
    ensures safe { StaysSafe telling_late_grant_taken }
{}
