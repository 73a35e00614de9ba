//! Worked schedules: failures 2.

ghost use Rattle.rules_rows.specs.Schedules.{ReadsAs, Prints, StaysSafe};
ghost use Rattle.rules_rows.specs.Failures2.{late_and_early_messages_d_late_revoke_dropped_after_install, late_and_early_messages_e_new_owners_write_revokes_reported_right, new_owner_stops_within_redo};

/// Late and early messages d late revoke dropped after install.
pub fn row_of_late_and_early_messages_d_late_revoke_dropped_after_install()
    ensures read { ReadsAs late_and_early_messages_d_late_revoke_dropped_after_install }
    ensures printed { Prints late_and_early_messages_d_late_revoke_dropped_after_install }
    ensures safe { StaysSafe late_and_early_messages_d_late_revoke_dropped_after_install }
{}

/// Late and early messages e new owners write revokes reported right.
pub fn row_of_late_and_early_messages_e_new_owners_write_revokes_reported_right()
    ensures read { ReadsAs late_and_early_messages_e_new_owners_write_revokes_reported_right }
    ensures printed { Prints late_and_early_messages_e_new_owners_write_revokes_reported_right }
    ensures safe { StaysSafe late_and_early_messages_e_new_owners_write_revokes_reported_right }
{}

/// New owner stops within redo.
pub fn row_of_new_owner_stops_within_redo()
    ensures read { ReadsAs new_owner_stops_within_redo }
    ensures printed { Prints new_owner_stops_within_redo }
    ensures safe { StaysSafe new_owner_stops_within_redo }
{}
