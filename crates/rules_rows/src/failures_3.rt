//! Worked schedules: failures 3.

ghost use Rattle.rules_rows.specs.Schedules.{ReadsAs, Prints, StaysSafe};
ghost use Rattle.rules_rows.specs.Failures3.{node_comes_back, owner_crashes_with_image_in_buffer, planned_move};

/// Node comes back.
pub fn row_of_node_comes_back()
    ensures read { ReadsAs node_comes_back }
    ensures printed { Prints node_comes_back }
    ensures safe { StaysSafe node_comes_back }
{}

/// Owner crashes with image in buffer.
pub fn row_of_owner_crashes_with_image_in_buffer()
    ensures read { ReadsAs owner_crashes_with_image_in_buffer }
    ensures printed { Prints owner_crashes_with_image_in_buffer }
    ensures safe { StaysSafe owner_crashes_with_image_in_buffer }
{}

/// Planned move.
pub fn row_of_planned_move()
    ensures read { ReadsAs planned_move }
    ensures printed { Prints planned_move }
    ensures safe { StaysSafe planned_move }
{}
