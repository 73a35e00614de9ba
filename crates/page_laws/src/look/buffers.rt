//! Laws of the copies of a home.

ghost use Rattle.page_laws.specs.Look.Buffers.{CleaningIsSeen, WritingBackIsSeen, LeavingIsSeen, FramesAreSeen};

/// A page that is made clean has its copy clean, and nothing else changes.
pub fn cleaning_is_seen()
    ensures { CleaningIsSeen }
{}

/// A copy that is written back is stored where it was dirty, is clean, and nothing else changes.
pub fn writing_back_is_seen()
    ensures { WritingBackIsSeen }
{}

/// A copy that is written back and leaves is no more, and nothing else changes.
pub fn leaving_is_seen()
    ensures { LeavingIsSeen }
{}

/// An access that isn't refused takes its frames by letting go of copies that no transaction uses, and of none of
/// its own page; nothing else that is seen changes.
pub fn frames_are_seen()
    ensures { FramesAreSeen }
{}
