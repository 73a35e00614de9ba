//! Worked schedules: rights.

ghost use Rattle.rules_rows.specs.Schedules.{ReadsAs, Prints, StaysSafe};
ghost use Rattle.rules_rows.specs.Rights.{read_under_right_sends_nothing, reader_under_right_upgrades_first, revocation_with_open_reader, right_arrives_for_aborted_reader};

/// Read under right sends nothing.
pub fn row_of_read_under_right_sends_nothing()
    ensures read { ReadsAs read_under_right_sends_nothing }
    ensures printed { Prints read_under_right_sends_nothing }
    ensures safe { StaysSafe read_under_right_sends_nothing }
{}

/// Reader under right upgrades first.
pub fn row_of_reader_under_right_upgrades_first()
    ensures read { ReadsAs reader_under_right_upgrades_first }
    ensures printed { Prints reader_under_right_upgrades_first }
    ensures safe { StaysSafe reader_under_right_upgrades_first }
{}

/// Revocation with open reader.
pub fn row_of_revocation_with_open_reader()
    ensures read { ReadsAs revocation_with_open_reader }
    ensures printed { Prints revocation_with_open_reader }
    ensures safe { StaysSafe revocation_with_open_reader }
{}

/// Right arrives for aborted reader.
pub fn row_of_right_arrives_for_aborted_reader()
    ensures read { ReadsAs right_arrives_for_aborted_reader }
    ensures printed { Prints right_arrives_for_aborted_reader }
    ensures safe { StaysSafe right_arrives_for_aborted_reader }
{}
