ghost use Rattle.std.specs.Prelude.{◌≡◌, ◌++◌, ◌∷◌, [], codes, IfOk, OnOk};
ghost use Rattle.std.specs.Fmt.{decimal};
ghost use Rattle.text_rules.specs.ScheduleLine.{spaced, tx_text};
ghost use Rattle.text_rules.specs.TraceText.{ended, call_text, kept_text};
ghost use Rattle.frame_rules.specs.Frames.{framed, end_kind};
ghost use Rattle.frame_rules.specs.WrittenFrames.{replies_text, replies_frame, sent_frame, end_frame, reason_text, fault_text, bad_frame_text, differs_text, long_text, halted_text};
ghost use Rattle.frame_rules.specs.ReadFrame.{bad_frame};
ghost use Rattle.schedule_text.specs.LineAnswer.{why_of};
ghost use Rattle.node_frames.specs.Seen.{reason_in, field_fault};

use crate::fault::{FieldFault, FrameReason};
use itoa::Buffer;
use pcl_base::{Call, Halt, Message, NoMemory, NodeNo, PageNo, Reply, TxId};
use schedule_text::LineReason;
use std::alloc::Global;
use trace_text::print_reply;

/// Appends bytes.
fn put(out: &mut Vec<u8>, bytes: &[u8]) -> Result<(), NoMemory>
    ensures { OnOk result (out.new.items ≡ out.old.items ++ bytes.now) }
{
    Ok(out.extend_from_slice(bytes)?)
}

/// Appends a number.
fn put_number(out: &mut Vec<u8>, number: u64) -> Result<(), NoMemory>
    ensures { OnOk result (out.new.items ≡ out.old.items ++ decimal number) }
{
    put(out, Buffer::new().format(number).as_bytes())
}

/// Appends a number after a space.
fn put_spaced(out: &mut Vec<u8>, number: u64) -> Result<(), NoMemory>
    ensures { OnOk result (out.new.items ≡ out.old.items ++ spaced number) }
{
    put(out, b" ")?;
    put_number(out, number)
}

/// A frame of a kind with this payload. A payload that no length of four bytes counts is want of
/// memory.
fn framed(alloc: Global, kind: u8, payload: &[u8]) -> Result<Vec<u8>, NoMemory>
    ensures { IfOk result (λ bytes. bytes.items ≡ framed kind payload.now) }
{
    if payload.len() >= u32::MAX as usize {
        return Err(NoMemory);
    }
    let length = payload.len() as u32 + 1;
    let mut out = Vec::new(alloc);
    put(&mut out, &length.to_be_bytes())?;
    out.push(kind)?;
    put(&mut out, payload)?;
    Ok(out)
}

/// The frame of the replies of one step.
///
/// It answers [`NoMemory`] where there is none for the frame.
pub fn encode_replies(alloc: Global, replies: &[Reply]) -> Result<Vec<u8>, NoMemory>
    ensures { IfOk result (λ bytes. bytes.items ≡ replies_frame replies.now) }
{
    let mut text = Vec::new(alloc);
    for reply in replies {
        let line = print_reply(alloc, reply)?;
        put(&mut text, &line)?;
    }
    framed(alloc, b'R', &text)
}

/// The frame of a message to a node.
///
/// It answers [`NoMemory`] where there is none for the frame, or where a list of the message has more
/// items than a number of four bytes counts.
pub fn encode_send(alloc: Global, to: NodeNo, message: &Message) -> Result<Vec<u8>, NoMemory>
    ensures { IfOk result (λ bytes. bytes.items ≡ sent_frame (record { to = to; message = message.now })) }
{
    let mut payload = Vec::new(alloc);
    payload.push(to)?;
    let bytes = messages::encode(alloc, message)?;
    put(&mut payload, &bytes)?;
    framed(alloc, b'M', &payload)
}

/// Appends the word of what is wrong with a field.
fn put_field(out: &mut Vec<u8>, fault: FieldFault) -> Result<(), NoMemory>
    ensures { OnOk result (out.new.items ≡ out.old.items ++ fault_text (field_fault fault)) }
{
    match fault {
        FieldFault::Short => put(out, b"Short"),
        FieldFault::BadKind => put(out, b"BadKind"),
        FieldFault::BadField => put(out, b"BadField"),
        FieldFault::TooLong => put(out, b"TooLong"),
    }
}

/// Appends the word of a reason.
fn put_reason(out: &mut Vec<u8>, reason: FrameReason) -> Result<(), NoMemory>
    ensures { OnOk result (out.new.items ≡ out.old.items ++ reason_text (reason_in reason)) }
{
    match reason {
        FrameReason::Length => put(out, b"length"),
        FrameReason::Cut => put(out, b"cut"),
        FrameReason::Kind => put(out, b"kind"),
        FrameReason::Line(LineReason::Byte) => put(out, b"byte"),
        FrameReason::Line(LineReason::Short) => put(out, b"short"),
        FrameReason::Field(fault) => put_field(out, fault),
    }
}

/// The last frame where a bad frame was read, the one of this number, counted from 1.
///
/// It answers [`NoMemory`] where there is none for the frame.
pub fn encode_bad(
    alloc: Global,
    frame: u64,
    place: usize,
    reason: FrameReason,
) -> Result<Vec<u8>, NoMemory>
    ensures { IfOk result (λ bytes. bytes.items ≡ end_frame (bad_frame_text frame (bad_frame place (reason_in reason)))) }
{
    let mut text = Vec::new(alloc);
    put(&mut text, b"bad")?;
    put_spaced(&mut text, frame)?;
    put_spaced(&mut text, place as u64)?;
    put(&mut text, b" ")?;
    put_reason(&mut text, reason)?;
    put(&mut text, b"\n")?;
    framed(alloc, b'E', &text)
}

/// The last frame where a page that was read from the storage has another number or version than it
/// must.
///
/// It answers [`NoMemory`] where there is none for the frame.
pub fn encode_differs(
    alloc: Global,
    page: PageNo,
    expected: u64,
    found: u64,
) -> Result<Vec<u8>, NoMemory>
    ensures { IfOk result (λ bytes. bytes.items ≡ end_frame (differs_text page expected found)) }
{
    let mut text = Vec::new(alloc);
    put(&mut text, b"differs")?;
    put_spaced(&mut text, page as u64)?;
    put_spaced(&mut text, expected)?;
    put_spaced(&mut text, found)?;
    put(&mut text, b"\n")?;
    framed(alloc, b'E', &text)
}

/// The last frame where more frames come than are read, at the first of them, counted from 1.
///
/// It answers [`NoMemory`] where there is none for the frame.
pub fn encode_long(alloc: Global, frame: u64) -> Result<Vec<u8>, NoMemory>
    ensures { IfOk result (λ bytes. bytes.items ≡ end_frame (long_text frame)) }
{
    let mut text = Vec::new(alloc);
    put(&mut text, b"long")?;
    put_spaced(&mut text, frame)?;
    put(&mut text, b"\n")?;
    framed(alloc, b'E', &text)
}

/// Appends the word of a kind of device call.
fn put_call(out: &mut Vec<u8>, call: Call) -> Result<(), NoMemory>
    ensures { OnOk result (out.new.items ≡ out.old.items ++ call_text call) }
{
    match call {
        Call::Read => put(out, b"read"),
        Call::Log => put(out, b"log"),
        Call::Write => put(out, b"write"),
        Call::Force => put(out, b"force"),
        Call::Trim => put(out, b"trim"),
        Call::Cut => put(out, b"cut"),
    }
}

/// Appends the transaction that a halt kept.
fn put_kept(out: &mut Vec<u8>, kept: Option<TxId>) -> Result<(), NoMemory>
    ensures { OnOk result (out.new.items ≡ out.old.items ++ kept_text kept) }
{
    match kept {
        None => Ok(()),
        Some(tx) => {
            put(out, b" kept ")?;
            put_number(out, tx.node as u64)?;
            put(out, b".")?;
            put_number(out, tx.born as u64)?;
            put(out, b".")?;
            put_number(out, tx.serial as u64)
        }
    }
}

/// The last frame where a call of the storage failed.
///
/// It answers [`NoMemory`] where there is none for the frame.
pub fn encode_halt(alloc: Global, halt: Halt) -> Result<Vec<u8>, NoMemory>
    ensures { IfOk result (λ bytes. bytes.items ≡ end_frame (halted_text halt)) }
{
    let mut text = Vec::new(alloc);
    put(&mut text, b"halted ")?;
    put_call(&mut text, halt.call)?;
    put_kept(&mut text, halt.kept)?;
    put(&mut text, b"\n")?;
    framed(alloc, b'E', &text)
}
