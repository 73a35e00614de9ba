//! Worked inputs, and the totals of their traces.

ghost use Rattle.replay_rules.specs.Inputs.{Sums};
ghost use Rattle.replay_rules.specs.Summaries.{summary_four_lines, totals_of_header_alone, totals_of_image_goes_with_release, totals_of_refusals, totals_of_stop_in_force_j36, totals_of_all_nodes_down, totals_of_bad_line_byte, totals_of_bad_size_in_header};

/// Summary four lines.
pub fn row_of_summary_four_lines()
    ensures { Sums summary_four_lines }
{}

/// Totals of header alone.
pub fn row_of_totals_of_header_alone()
    ensures { Sums totals_of_header_alone }
{}

/// Totals of image goes with release.
pub fn row_of_totals_of_image_goes_with_release()
    ensures { Sums totals_of_image_goes_with_release }
{}

/// Totals of refusals.
pub fn row_of_totals_of_refusals()
    ensures { Sums totals_of_refusals }
{}

/// Totals of stop in force j36.
pub fn row_of_totals_of_stop_in_force_j36()
    ensures { Sums totals_of_stop_in_force_j36 }
{}

/// Totals of all nodes down.
pub fn row_of_totals_of_all_nodes_down()
    ensures { Sums totals_of_all_nodes_down }
{}

/// Totals of bad line byte.
pub fn row_of_totals_of_bad_line_byte()
    ensures { Sums totals_of_bad_line_byte }
{}

/// Totals of bad size in header.
pub fn row_of_totals_of_bad_size_in_header()
    ensures { Sums totals_of_bad_size_in_header }
{}
