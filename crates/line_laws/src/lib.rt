#![tactic(auto)]

//! What holds of the lines of a schedule, however they are read: each has one reading, and a line outside
//! the grammar is bad at one column.

ghost use Rattle.line_laws.specs.BothWays.{LinesGoBothWays, FormsAreRead};
ghost use Rattle.line_laws.specs.LeastColumn.{ColumnsAreLeast};

/// What is read from a line has this line, and what has a line is read from it.
pub fn lines_go_both_ways()
    ensures { LinesGoBothWays }
{}

/// A line follows one of its forms to the end exactly where it is read.
pub fn forms_are_read()
    ensures { FormsAreRead }
{}

/// The column of a bad line is the least one up to which no line of the grammar goes, for the lines of events
/// and for the first line, with a newline behind them or without.
pub fn columns_are_least()
    ensures { ColumnsAreLeast }
{}
