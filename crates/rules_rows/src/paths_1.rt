//! Worked schedules: paths 1.

ghost use Rattle.rules_rows.specs.Schedules.{ReadsAs, Prints, StaysSafe};
ghost use Rattle.rules_rows.specs.Paths1.{plain_path, first_message_path, header_alone, waiting_at_one_node, victim_of_deadlock};

/// Plain path.
pub fn row_of_plain_path()
    ensures read { ReadsAs plain_path }
    ensures printed { Prints plain_path }
    ensures safe { StaysSafe plain_path }
{}

/// First message path.
pub fn row_of_first_message_path()
    ensures read { ReadsAs first_message_path }
    ensures printed { Prints first_message_path }
    ensures safe { StaysSafe first_message_path }
{}

/// Header alone.
pub fn row_of_header_alone()
    ensures read { ReadsAs header_alone }
    ensures printed { Prints header_alone }
    ensures safe { StaysSafe header_alone }
{}

/// Waiting at one node.
pub fn row_of_waiting_at_one_node()
    ensures read { ReadsAs waiting_at_one_node }
    ensures printed { Prints waiting_at_one_node }
    ensures safe { StaysSafe waiting_at_one_node }
{}

/// Victim of deadlock.
pub fn row_of_victim_of_deadlock()
    ensures read { ReadsAs victim_of_deadlock }
    ensures printed { Prints victim_of_deadlock }
    ensures safe { StaysSafe victim_of_deadlock }
{}
