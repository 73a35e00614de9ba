ghost use Rattle.std.specs.Prelude.{◌≡◌, ◌+◌, ◌++◌, false, length, OnOk};
ghost use Rattle.text_rules.specs.BadLine.{bad_at, bad_text, event_forms, header_forms};
ghost use Rattle.text_rules.specs.BadLine.Why.{Cut};
ghost use Rattle.replay_rules.specs.Due.{bad_line};

use crate::text::Text;
use pcl_base::NoMemory;
use schedule_text::{LineFault, LineReason, read_header, read_line};
use std::alloc::Global;

/// Appends the last line of a run whose first line no newline ends, behind so many lines.
pub(crate) fn cut_header(part: &[u8], lines: u32, text: &mut Text) -> Result<(), NoMemory>
    ensures { OnOk result (text.new ≡ text.old ++ bad_line lines (bad_at false header_forms part.now)) }
{
    match read_header(part) {
        Ok(_) => cut(part, lines, text),
        Err(LineFault::BadLine { column, reason }) => match reason {
            LineReason::Byte => text.bad(lines, column, b"byte"),
            LineReason::Short => cut(part, lines, text),
        },
        Err(LineFault::NoMemory) => Err(NoMemory),
    }
}

/// The same, of a further line.
pub(crate) fn cut_event(
    alloc: Global,
    part: &[u8],
    lines: u32,
    text: &mut Text,
) -> Result<(), NoMemory>
    ensures { OnOk result (text.new ≡ text.old ++ bad_line lines (bad_at false event_forms part.now)) }
{
    match read_line(alloc, part) {
        Ok(_event) => cut(part, lines, text),
        Err(LineFault::BadLine { column, reason }) => match reason {
            LineReason::Byte => text.bad(lines, column, b"byte"),
            LineReason::Short => cut(part, lines, text),
        },
        Err(LineFault::NoMemory) => Err(NoMemory),
    }
}

/// The column behind the last byte of a line that no newline ends.
fn cut(part: &[u8], lines: u32, text: &mut Text) -> Result<(), NoMemory>
    ensures { OnOk result (text.new ≡ text.old ++ bad_text (lines + 1) (length part.now + 1) Cut) }
{
    text.bad(lines, part.len() + 1, b"cut")
}
