//! Worked schedules: telling 4.

ghost use Rattle.rules_rows.specs.Schedules.{ReadsAs, Prints, StaysSafe};
ghost use Rattle.rules_rows.specs.Telling4.{telling_no_born_of_receiver, telling_no_born_of_sender, telling_no_redo_in_kept};

/// Telling no born of receiver.
pub fn row_of_telling_no_born_of_receiver()
    ensures read { ReadsAs telling_no_born_of_receiver }
    ensures printed { Prints telling_no_born_of_receiver }
    ensures safe { StaysSafe telling_no_born_of_receiver }
{}

/// Telling no born of sender.
pub fn row_of_telling_no_born_of_sender()
    ensures read { ReadsAs telling_no_born_of_sender }
    ensures printed { Prints telling_no_born_of_sender }
    ensures safe { StaysSafe telling_no_born_of_sender }
{}

/// Telling no redo in kept.
pub fn row_of_telling_no_redo_in_kept()
    ensures read { ReadsAs telling_no_redo_in_kept }
    ensures printed { Prints telling_no_redo_in_kept }
    ensures safe { StaysSafe telling_no_redo_in_kept }
{}
