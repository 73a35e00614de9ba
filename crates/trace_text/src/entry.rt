ghost use Rattle.std.specs.Prelude.{◌≡◌, ◌++◌, IfOk, OnOk, codes, flat_map};
ghost use Rattle.text_rules.specs.ScheduleLine.{HasLine, line_of};
ghost use Rattle.text_rules.specs.TraceText.{call_text, echo_text, ended, entry_text, halt_text, kept_text, reply_line, sent_line};

use crate::note::put_sent;
use crate::reply::put_reply;
use crate::words::{put, put_spaced_tx};
use pcl_base::{Call, Entry, Event, Halt, NoMemory, Reply, Sent, TxId};
use schedule_text::print_event;
use std::alloc::Global;

/// Prints the text of an entry: `> ` and its event's line, then its replies, the line of its halt
/// where it has one, and its messages, each line with its newline.
///
/// The event must have a line of docs/formats.md, schedule lines. It answers [`NoMemory`] where
/// there is none for the text.
pub fn print_entry(alloc: Global, entry: &Entry) -> Result<Vec<u8>, NoMemory>
    requires { HasLine entry.now.event }
    ensures { IfOk result (λ text. text.items ≡ entry_text entry.now) }
{
    let mut out = Vec::new(alloc);
    put_event(alloc, &mut out, &entry.event)?;
    put_replies(&mut out, entry.replies.as_slice())?;
    put_halt(&mut out, entry.halted)?;
    put_sends(&mut out, entry.sent.as_slice())?;
    Ok(out)
}

/// Appends the line of an event after `> `.
fn put_event(alloc: Global, out: &mut Vec<u8>, event: &Event) -> Result<(), NoMemory>
    requires { HasLine event.now }
    ensures { OnOk result (out.new.items ≡ out.old.items ++ echo_text (line_of event.now)) }
{
    let line = print_event(alloc, event)?;
    put(out, b"> ")?;
    put(out, line.as_slice())?;
    put(out, b"\n")
}

/// Appends the lines of replies.
fn put_replies(out: &mut Vec<u8>, replies: &[Reply]) -> Result<(), NoMemory>
    ensures { OnOk result (out.new.items ≡ out.old.items ++ flat_map (λ r. ended (reply_line r)) replies.now) }
{
    for reply in replies {
        put_reply(out, reply)?;
    }
    Ok(())
}

/// Appends the lines of messages.
fn put_sends(out: &mut Vec<u8>, sends: &[Sent]) -> Result<(), NoMemory>
    ensures { OnOk result (out.new.items ≡ out.old.items ++ flat_map (λ s. ended (sent_line s)) sends.now) }
{
    for sent in sends {
        put_sent(out, sent)?;
    }
    Ok(())
}

/// Appends the line of a halt, where there is one.
fn put_halt(out: &mut Vec<u8>, halted: Option<Halt>) -> Result<(), NoMemory>
    ensures { OnOk result (out.new.items ≡ out.old.items ++ halt_text halted) }
{
    match halted {
        None => Ok(()),
        Some(Halt { call, kept }) => {
            put(out, b"halted ")?;
            put_call(out, call)?;
            put_kept(out, kept)?;
            put(out, b"\n")
        }
    }
}

/// Appends the word of a kind of device call.
fn put_call(out: &mut Vec<u8>, call: Call) -> Result<(), NoMemory>
    ensures { OnOk result (out.new.items ≡ out.old.items ++ call_text call) }
{
    match call {
        Call::Read => put(out, b"read"),
        Call::Log => put(out, b"log"),
        Call::Write => put(out, b"write"),
        Call::Force => put(out, b"force"),
        Call::Trim => put(out, b"trim"),
        Call::Cut => put(out, b"cut"),
    }
}

/// Appends the transaction whose record a halt kept, where there is one.
fn put_kept(out: &mut Vec<u8>, kept: Option<TxId>) -> Result<(), NoMemory>
    ensures { OnOk result (out.new.items ≡ out.old.items ++ kept_text kept) }
{
    match kept {
        None => Ok(()),
        Some(tx) => {
            put(out, b" kept")?;
            put_spaced_tx(out, tx)
        }
    }
}
