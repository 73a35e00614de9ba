//! Worked schedules: failures 1.

ghost use Rattle.rules_rows.specs.Schedules.{ReadsAs, Prints, StaysSafe};
ghost use Rattle.rules_rows.specs.Failures1.{all_nodes_down, late_and_early_messages_a_late_grant_taken_before_install, late_and_early_messages_b_late_grant_dropped_after_install, late_and_early_messages_c_late_revoke_taken_before_install};

/// All nodes down.
pub fn row_of_all_nodes_down()
    ensures read { ReadsAs all_nodes_down }
    ensures printed { Prints all_nodes_down }
    ensures safe { StaysSafe all_nodes_down }
{}

/// Late and early messages a late grant taken before install.
pub fn row_of_late_and_early_messages_a_late_grant_taken_before_install()
    ensures read { ReadsAs late_and_early_messages_a_late_grant_taken_before_install }
    ensures printed { Prints late_and_early_messages_a_late_grant_taken_before_install }
    ensures safe { StaysSafe late_and_early_messages_a_late_grant_taken_before_install }
{}

/// Late and early messages b late grant dropped after install.
pub fn row_of_late_and_early_messages_b_late_grant_dropped_after_install()
    ensures read { ReadsAs late_and_early_messages_b_late_grant_dropped_after_install }
    ensures printed { Prints late_and_early_messages_b_late_grant_dropped_after_install }
    ensures safe { StaysSafe late_and_early_messages_b_late_grant_dropped_after_install }
{}

/// Late and early messages c late revoke taken before install.
pub fn row_of_late_and_early_messages_c_late_revoke_taken_before_install()
    ensures read { ReadsAs late_and_early_messages_c_late_revoke_taken_before_install }
    ensures printed { Prints late_and_early_messages_c_late_revoke_taken_before_install }
    ensures safe { StaysSafe late_and_early_messages_c_late_revoke_taken_before_install }
{}
