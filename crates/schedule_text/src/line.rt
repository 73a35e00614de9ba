ghost use Rattle.std.specs.Prelude.{◌≡◌, length, IfOk, IfErr};
ghost use Rattle.text_rules.specs.ScheduleLine.{header_line, line_of, HasHeader, HasLine};
ghost use Rattle.text_rules.specs.ReadLine.{header_of as header_spec};
ghost use Rattle.text_rules.specs.ReadEvent.{event_of as event_spec};
ghost use Rattle.text_rules.specs.BadLine.{event_forms, header_forms};
ghost use Rattle.schedule_text.specs.LineAnswer.{IsRead, IsFaultOf, fault_at as fault_at_spec, later_event_of as later_event_spec};

use crate::events::{
    abort_of, arm_of, at_end, begin_of, commit_of, crash_of, cut_of, deliver_of, evict_of,
    flush_of, install_of, read_of, reopen_of, view_of, write_of,
};
use crate::fault::{LineFault, LineReason};
use crate::fields::{after_word, spaced_at};
use crate::forms::{event_front, header_front};
use pcl_base::{Event, Header, NoMemory};
use std::alloc::Global;

/// Reads the first line of a schedule, without its newline. It takes no memory.
///
/// A line outside the grammar is [`LineFault::BadLine`]; whether the numbers make a configuration
/// isn't asked here.
pub fn read_header(line: &[u8]) -> Result<Header, LineFault>
    ensures read { IsRead header_spec header_forms line.now result }
    ensures printed { IfOk result (λ h. HasHeader h × (header_line h ≡ line.now)) }
    ensures fault { IfErr result (IsFaultOf header_forms line.now) }
{
    match header_of(line) {
        Some(header) => Ok(header),
        None => Err(fault_at(line, header_front(line))),
    }
}

/// Reads any further line of a schedule, without its newline.
///
/// A line outside the grammar is [`LineFault::BadLine`]. [`LineFault::NoMemory`] comes where there is
/// none for the bytes of a write or for the lists of a view.
pub fn read_line(alloc: Global, line: &[u8]) -> Result<Event, LineFault>
    ensures read { IsRead event_spec event_forms line.now result }
    ensures printed { IfOk result (λ e. HasLine e × (line_of e ≡ line.now)) }
{
    match event_of(alloc, line) {
        Ok(Some(event)) => Ok(event),
        Ok(None) => Err(fault_at(line, event_front(line))),
        Err(_) => Err(LineFault::NoMemory),
    }
}

/// The fault of a line of which so many bytes from the front are a front of a line of the grammar.
fn fault_at(line: &[u8], front: usize) -> LineFault
    ensures { result ≡ fault_at_spec (length line.now) front }
{
    if front < line.len() {
        return LineFault::BadLine {
            column: front + 1,
            reason: LineReason::Byte,
        };
    }
    LineFault::BadLine {
        column: line.len() + 1,
        reason: LineReason::Short,
    }
}

/// The numbers of a first line.
#[tactic(auto, unfolding(text_rules::specs::ReadLine::header_of))]
fn header_of(line: &[u8]) -> Option<Header>
    ensures { result ≡ header_spec line.now }
{
    let rest = after_word(line, b"pcl 1")?;
    let (nodes, rest) = spaced_at(rest, 0, 65_536)?;
    let (pages, rest) = spaced_at(rest, 0, 65_536)?;
    let (size, rest) = spaced_at(rest, 0, 65_536)?;
    let (frames, rest) = spaced_at(rest, 0, 65_536)?;
    let header = Header {
        nodes,
        pages,
        size,
        frames,
    };
    at_end(header, rest)
}

/// The event of a line, by the word that it begins with.
#[tactic(auto, unfolding(text_rules::specs::ReadEvent::event_of))]
fn event_of(alloc: Global, line: &[u8]) -> Result<Option<Event>, NoMemory>
    ensures { IfOk result (λ o. o ≡ event_spec line.now) }
{
    if let Some(rest) = after_word(line, b"begin ") {
        return Ok(begin_of(rest));
    }
    if let Some(rest) = after_word(line, b"read ") {
        return Ok(read_of(rest));
    }
    if let Some(rest) = after_word(line, b"write ") {
        return write_of(alloc, rest);
    }
    if let Some(rest) = after_word(line, b"commit ") {
        return Ok(commit_of(rest));
    }
    if let Some(rest) = after_word(line, b"abort ") {
        return Ok(abort_of(rest));
    }
    later_event_of(alloc, line)
}

/// The same for the words that no transaction begins with.
fn later_event_of(alloc: Global, line: &[u8]) -> Result<Option<Event>, NoMemory>
    ensures { IfOk result (λ o. o ≡ later_event_spec line.now) }
{
    if let Some(rest) = after_word(line, b"deliver ") {
        return Ok(deliver_of(rest));
    }
    if let Some(rest) = after_word(line, b"evict ") {
        return Ok(evict_of(rest));
    }
    if let Some(rest) = after_word(line, b"flush ") {
        return Ok(flush_of(rest));
    }
    if let Some(rest) = after_word(line, b"crash ") {
        return Ok(crash_of(rest));
    }
    if let Some(rest) = after_word(line, b"view ") {
        return view_of(alloc, rest);
    }
    if let Some(rest) = after_word(line, b"install ") {
        return Ok(install_of(rest));
    }
    if let Some(rest) = after_word(line, b"reopen") {
        return Ok(reopen_of(rest));
    }
    if let Some(rest) = after_word(line, b"arm ") {
        return Ok(arm_of(rest));
    }
    if let Some(rest) = after_word(line, b"cut ") {
        return Ok(cut_of(rest));
    }
    Ok(None)
}
