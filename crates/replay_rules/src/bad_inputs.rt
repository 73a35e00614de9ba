//! Worked inputs with a bad line.

ghost use Rattle.replay_rules.specs.Inputs.{Replays};
ghost use Rattle.replay_rules.specs.BadInputs.{empty_input, bad_size_in_header, bad_line_byte, bad_line_short, bad_line_cut, header_of_no_node, header_of_another_version, header_is_cut, empty_line, second_bad_line_is_not_told, whole_line_is_cut};

/// Empty input.
pub fn row_of_empty_input()
    ensures { Replays empty_input }
{}

/// Bad size in header.
pub fn row_of_bad_size_in_header()
    ensures { Replays bad_size_in_header }
{}

/// Bad line byte.
pub fn row_of_bad_line_byte()
    ensures { Replays bad_line_byte }
{}

/// Bad line short.
pub fn row_of_bad_line_short()
    ensures { Replays bad_line_short }
{}

/// Bad line cut.
pub fn row_of_bad_line_cut()
    ensures { Replays bad_line_cut }
{}

/// Header of no node.
pub fn row_of_header_of_no_node()
    ensures { Replays header_of_no_node }
{}

/// Header of another version.
pub fn row_of_header_of_another_version()
    ensures { Replays header_of_another_version }
{}

/// Header is cut.
pub fn row_of_header_is_cut()
    ensures { Replays header_is_cut }
{}

/// Empty line.
pub fn row_of_empty_line()
    ensures { Replays empty_line }
{}

/// Second bad line is not told.
pub fn row_of_second_bad_line_is_not_told()
    ensures { Replays second_bad_line_is_not_told }
{}

/// Whole line is cut.
pub fn row_of_whole_line_is_cut()
    ensures { Replays whole_line_is_cut }
{}
