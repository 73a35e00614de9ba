ghost use Rattle.std.specs.Prelude.{◌≡◌, IfOk};
ghost use Rattle.text_rules.specs.ReadLine.{begin_of as begin_spec, read_of as read_spec, write_of as write_spec, commit_of as commit_spec, at_end as at_end_spec};
ghost use Rattle.text_rules.specs.ReadEvent.{abort_of as abort_spec, deliver_of as deliver_spec, evict_of as evict_spec, flush_of as flush_spec, crash_of as crash_spec, view_of as view_spec, install_of as install_spec, reopen_of as reopen_spec, arm_of as arm_spec, cut_of as cut_spec};

use crate::bytes::bytes_of;
use crate::fields::{after_word, number_at, spaced_at, tx_at};
use crate::views::{flags_len, flags_of, owners_of};
use pcl_base::{Event, NoMemory};
use std::alloc::Global;

/// A value with nothing after it.
pub(crate) fn at_end<T: Drop>(value: T, rest: &[u8]) -> Option<T>
    ensures { result ≡ at_end_spec value rest.now }
{
    match rest {
        [] => Some(value),
        _ => None,
    }
}

/// Reads a `begin` line after its word, as each of these its own.
#[tactic(auto, unfolding(text_rules::specs::ReadLine::begin_of))]
pub(crate) fn begin_of(bytes: &[u8]) -> Option<Event>
    ensures { result ≡ begin_spec bytes.now }
{
    let (node, rest) = number_at(bytes, 0, 15)?;
    at_end(Event::Begin { node: node as u8 }, rest)
}

/// Reads a `read` line.
#[tactic(auto, unfolding(text_rules::specs::ReadLine::read_of))]
pub(crate) fn read_of(bytes: &[u8]) -> Option<Event>
    ensures { result ≡ read_spec bytes.now }
{
    let (tx, rest) = tx_at(bytes)?;
    let (page, rest) = spaced_at(rest, 0, 65_535)?;
    at_end(Event::Read { tx, page }, rest)
}

/// Reads a `write` line.
#[tactic(auto, unfolding(text_rules::specs::ReadLine::write_of))]
pub(crate) fn write_of(alloc: Global, bytes: &[u8]) -> Result<Option<Event>, NoMemory>
    ensures { IfOk result (λ e. e ≡ write_spec bytes.now) }
{
    let Some((tx, rest)) = tx_at(bytes) else {
        return Ok(None);
    };
    let Some((page, rest)) = spaced_at(rest, 0, 65_535) else {
        return Ok(None);
    };
    let Some((place, rest)) = spaced_at(rest, 0, 4_095) else {
        return Ok(None);
    };
    let Some(text) = after_word(rest, b" ") else {
        return Ok(None);
    };
    match bytes_of(alloc, text)? {
        Some(bytes) => Ok(Some(Event::Write {
            tx,
            page,
            place,
            bytes,
        })),
        None => Ok(None),
    }
}

/// Reads a `commit` line.
#[tactic(auto, unfolding(text_rules::specs::ReadLine::commit_of))]
pub(crate) fn commit_of(bytes: &[u8]) -> Option<Event>
    ensures { result ≡ commit_spec bytes.now }
{
    let (tx, rest) = tx_at(bytes)?;
    at_end(Event::Commit { tx }, rest)
}

/// Reads an `abort` line.
#[tactic(auto, unfolding(text_rules::specs::ReadEvent::abort_of))]
pub(crate) fn abort_of(bytes: &[u8]) -> Option<Event>
    ensures { result ≡ abort_spec bytes.now }
{
    let (tx, rest) = tx_at(bytes)?;
    at_end(Event::Abort { tx }, rest)
}

/// Reads a `deliver` line.
#[tactic(auto, unfolding(text_rules::specs::ReadEvent::deliver_of))]
pub(crate) fn deliver_of(bytes: &[u8]) -> Option<Event>
    ensures { result ≡ deliver_spec bytes.now }
{
    let (from, rest) = number_at(bytes, 0, 15)?;
    let (to, rest) = spaced_at(rest, 0, 15)?;
    at_end(
        Event::Deliver {
            from: from as u8,
            to: to as u8,
        },
        rest,
    )
}

/// Reads an `evict` line.
#[tactic(auto, unfolding(text_rules::specs::ReadEvent::evict_of))]
pub(crate) fn evict_of(bytes: &[u8]) -> Option<Event>
    ensures { result ≡ evict_spec bytes.now }
{
    let (node, rest) = number_at(bytes, 0, 15)?;
    let (page, rest) = spaced_at(rest, 0, 65_535)?;
    at_end(
        Event::Evict {
            node: node as u8,
            page,
        },
        rest,
    )
}

/// Reads a `flush` line.
#[tactic(auto, unfolding(text_rules::specs::ReadEvent::flush_of))]
pub(crate) fn flush_of(bytes: &[u8]) -> Option<Event>
    ensures { result ≡ flush_spec bytes.now }
{
    let (node, rest) = number_at(bytes, 0, 15)?;
    let (page, rest) = spaced_at(rest, 0, 65_535)?;
    at_end(
        Event::Flush {
            node: node as u8,
            page,
        },
        rest,
    )
}

/// Reads a `crash` line.
#[tactic(auto, unfolding(text_rules::specs::ReadEvent::crash_of))]
pub(crate) fn crash_of(bytes: &[u8]) -> Option<Event>
    ensures { result ≡ crash_spec bytes.now }
{
    let (node, rest) = number_at(bytes, 0, 15)?;
    at_end(Event::Crash { node: node as u8 }, rest)
}

/// Reads a `view` line.
#[tactic(auto, unfolding(text_rules::specs::ReadEvent::view_of, text_rules::specs::ReadEvent::flags_at))]
pub(crate) fn view_of(alloc: Global, bytes: &[u8]) -> Result<Option<Event>, NoMemory>
    ensures { IfOk result (λ o. o ≡ view_spec bytes.now) }
{
    let (flags, rest) = bytes.split_at(flags_len(bytes));
    if flags.is_empty() || 16 < flags.len() {
        return Ok(None);
    }
    let Some(text) = after_word(rest, b" ") else {
        return Ok(None);
    };
    match owners_of(alloc, text)? {
        Some(owners) => Ok(Some(Event::View {
            live: flags_of(alloc, flags)?,
            owners,
        })),
        None => Ok(None),
    }
}

/// Reads an `install` line.
#[tactic(auto, unfolding(text_rules::specs::ReadEvent::install_of))]
pub(crate) fn install_of(bytes: &[u8]) -> Option<Event>
    ensures { result ≡ install_spec bytes.now }
{
    let (node, rest) = number_at(bytes, 0, 15)?;
    at_end(Event::Install { node: node as u8 }, rest)
}

/// Reads a `reopen` line.
#[tactic(auto, unfolding(text_rules::specs::ReadEvent::reopen_of))]
pub(crate) fn reopen_of(bytes: &[u8]) -> Option<Event>
    ensures { result ≡ reopen_spec bytes.now }
{
    at_end(Event::Reopen, bytes)
}

/// Reads an `arm` line.
#[tactic(auto, unfolding(text_rules::specs::ReadEvent::arm_of))]
pub(crate) fn arm_of(bytes: &[u8]) -> Option<Event>
    ensures { result ≡ arm_spec bytes.now }
{
    let (node, rest) = number_at(bytes, 0, 15)?;
    let (call, rest) = spaced_at(rest, 1, u32::MAX)?;
    let (kept, rest) = spaced_at(rest, 0, u32::MAX)?;
    at_end(
        Event::Arm {
            node: node as u8,
            call,
            kept,
        },
        rest,
    )
}

/// Reads a `cut` line.
#[tactic(auto, unfolding(text_rules::specs::ReadEvent::cut_of))]
pub(crate) fn cut_of(bytes: &[u8]) -> Option<Event>
    ensures { result ≡ cut_spec bytes.now }
{
    let (node, rest) = number_at(bytes, 0, 15)?;
    at_end(Event::Cut { node: node as u8 }, rest)
}
