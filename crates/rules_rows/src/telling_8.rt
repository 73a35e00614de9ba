//! Worked schedules: telling 8.

ghost use Rattle.rules_rows.specs.Schedules.{ReadsAs, Prints, StaysSafe};
ghost use Rattle.rules_rows.specs.Telling8.{telling_settle_while_rebuilt, telling_upgrade_beside_readers};

/// Telling settle while rebuilt.
pub fn row_of_telling_settle_while_rebuilt()
    ensures read { ReadsAs telling_settle_while_rebuilt }
    ensures printed { Prints telling_settle_while_rebuilt }
    ensures safe { StaysSafe telling_settle_while_rebuilt }
{}

/// Telling upgrade beside readers.
pub fn row_of_telling_upgrade_beside_readers()
    ensures read { ReadsAs telling_upgrade_beside_readers }
    ensures printed { Prints telling_upgrade_beside_readers }
    ensures safe { StaysSafe telling_upgrade_beside_readers }
{}
