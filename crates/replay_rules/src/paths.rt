//! Worked inputs: paths.

ghost use Rattle.replay_rules.specs.Inputs.{Replays};
ghost use Rattle.replay_rules.specs.Paths.{header_alone, plain_path, first_message_path, victim_of_deadlock, image_goes_with_release, refusals};

/// Header alone.
pub fn row_of_header_alone()
    ensures { Replays header_alone }
{}

/// Plain path.
pub fn row_of_plain_path()
    ensures { Replays plain_path }
{}

/// First message path.
pub fn row_of_first_message_path()
    ensures { Replays first_message_path }
{}

/// Victim of deadlock.
pub fn row_of_victim_of_deadlock()
    ensures { Replays victim_of_deadlock }
{}

/// Image goes with release.
pub fn row_of_image_goes_with_release()
    ensures { Replays image_goes_with_release }
{}

/// Refusals.
pub fn row_of_refusals()
    ensures { Replays refusals }
{}
