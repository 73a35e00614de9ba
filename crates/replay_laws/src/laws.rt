//! Laws of inputs, whatever their bytes.

ghost use Rattle.std.specs.Prelude.{◌≡◌, [], List, ℕ, true, false};
ghost use Rattle.replay_rules.specs.Due.{due};
ghost use Rattle.replay_rules.specs.Outcome.{GoesOn, so_far};
ghost use Rattle.replay_rules.specs.RunOfInput.{IsDueTo};
ghost use Rattle.replay_rules.specs.Schedule.{IsSummed};
ghost use Rattle.replay_laws.specs.InputLaws.{LinesAreShort, EndingsAreTold, SchedulesAreToldWhole, BeginningsAreKept};
ghost use Rattle.replay_laws.specs.OutcomeLaws.{OutcomesAreComplete};

/// No line of the grammar has a newline within it, and none is longer than 8,234 bytes.
pub fn lines_are_short()
    ensures { LinesAreShort }
{}

/// What is due to an input, of `replay` and of `summary`: its first lines are those of a header and of events,
/// and the entries are those of their run; behind them it ends, or comes to a bad line or to a line too
/// many. Or its first line is no header of a configuration.
pub fn due_to_an_input()
    ensures { (input : List ℕ) → IsDueTo input (λ totals. due totals input) }
{}

/// Nothing else may be due: the text and the status are those of the lines and of how the input ends, wherever
/// it ends so. Status 3 comes exactly at a bad line or header, and 7 exactly at a line too many.
pub fn endings_are_told()
    ensures { EndingsAreTold }
{}

/// What is due to a schedule is its whole run, and nothing else ends at status 0.
pub fn schedules_are_told_whole()
    ensures { SchedulesAreToldWhole }
{}

/// A part of an input is read as it is where more follows: what it gives is a beginning of what is due to the
/// whole.
pub fn beginnings_are_kept()
    ensures { BeginningsAreKept }
{}

/// The totals that `summary` writes are those of the trace that `replay` writes, and nothing stands before
/// them.
pub fn totals_are_of_the_trace()
    ensures same { (input : List ℕ) → IsSummed (due true input) (due false input) }
    ensures alone { (taken : List ℕ) → GoesOn true taken → (so_far true taken).text ≡ [] }
{}

/// A run that ended at status 0 has read a schedule to its end, and has written the text of its run. And a
/// run over a schedule ends so, or for want of memory, where neither source nor sink fails.
pub fn outcomes_are_complete()
    ensures { OutcomesAreComplete }
{}
