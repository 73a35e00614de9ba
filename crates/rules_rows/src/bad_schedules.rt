//! Schedules with a bad line.

ghost use Rattle.std.specs.Prelude.{◌≡◌, [], codes, false, Some};
ghost use Rattle.text_rules.specs.BadLine.{bad_at, bad_text, header_forms};
ghost use Rattle.text_rules.specs.BadLine.Why.{Cut};
ghost use Rattle.rules_rows.specs.BadSchedules.{IsRefused, bad_line_byte, bad_line_short, bad_line_cut};

/// Bad line byte.
pub fn row_of_bad_line_byte()
    ensures { IsRefused bad_line_byte }
{}

/// Bad line short.
pub fn row_of_bad_line_short()
    ensures { IsRefused bad_line_short }
{}

/// Bad line cut.
pub fn row_of_bad_line_cut()
    ensures { IsRefused bad_line_cut }
{}

/// Empty input.
pub fn row_of_empty_input()
    ensures bad { bad_at false header_forms [] ≡ Some (1, Cut) }
    ensures printed { bad_text 1 1 Cut ≡ codes "bad 1 1 cut\n" }
{}
