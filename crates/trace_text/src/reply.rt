ghost use Rattle.std.specs.Prelude.{◌≡◌, ◌++◌, IfOk, OnOk, codes};
ghost use Rattle.text_rules.specs.ScheduleLine.{spaced};
ghost use Rattle.text_rules.specs.TraceText.{ended, spaced_tx, reply_line, reason_text};
ghost use Rattle.pcl_base.specs.declared.reply.Reply.TheVariants.{Value, Done, Waits, Refused};

use crate::words::{put, put_bytes, put_line, put_spaced, put_spaced_tx};
use pcl_base::{NoMemory, PageNo, Reason, Reply, TxId, Version};
use std::alloc::Global;

/// Prints the line of a reply, with its newline.
///
/// It answers [`NoMemory`] where there is none for the text.
pub fn print_reply(alloc: Global, reply: &Reply) -> Result<Vec<u8>, NoMemory>
    ensures { IfOk result (λ text. text.items ≡ ended (reply_line reply.now)) }
{
    let mut out = Vec::new(alloc);
    put_reply(&mut out, reply)?;
    Ok(out)
}

/// Appends the line of a reply.
pub(crate) fn put_reply(out: &mut Vec<u8>, reply: &Reply) -> Result<(), NoMemory>
    ensures { OnOk result (out.new.items ≡ out.old.items ++ ended (reply_line reply.now)) }
{
    match reply {
        Reply::Begun { tx } => put_of_tx(out, b"begun", *tx),
        Reply::Committed { tx } => put_of_tx(out, b"committed", *tx),
        Reply::Aborted { tx } => put_of_tx(out, b"aborted", *tx),
        Reply::Value {
            tx,
            page,
            version,
            bytes,
        } => put_value(out, *tx, *page, *version, bytes.as_slice()),
        Reply::Done { tx, page, version } => put_done(out, *tx, *page, *version),
        Reply::Waits { tx, page } => put_waits(out, *tx, *page),
        Reply::Taken => put_line(out, b"taken"),
        Reply::Held => put_line(out, b"held"),
        Reply::Dropped => put_line(out, b"dropped"),
        Reply::Evicted => put_line(out, b"evicted"),
        Reply::Flushed => put_line(out, b"flushed"),
        Reply::Crashed => put_line(out, b"crashed"),
        Reply::Armed => put_line(out, b"armed"),
        Reply::Cut { count } => put_of_number(out, b"cut", *count),
        Reply::Viewed { epoch } => put_of_number(out, b"view", *epoch as u64),
        Reply::Installed { epoch } => put_of_number(out, b"installed", *epoch as u64),
        Reply::Reopened { epoch } => put_of_number(out, b"reopened", *epoch as u64),
        Reply::Serving { partition } => put_of_number(out, b"serving", *partition as u64),
        Reply::Refused { reason } => put_refused(out, *reason),
    }
}

/// Appends a line of a word and a transaction.
fn put_of_tx(out: &mut Vec<u8>, word: &[u8], tx: TxId) -> Result<(), NoMemory>
    ensures { OnOk result (out.new.items ≡ out.old.items ++ ended (word.now ++ spaced_tx tx)) }
{
    put(out, word)?;
    put_spaced_tx(out, tx)?;
    put(out, b"\n")
}

/// Appends a line of a word and a number.
fn put_of_number(out: &mut Vec<u8>, word: &[u8], number: u64) -> Result<(), NoMemory>
    ensures { OnOk result (out.new.items ≡ out.old.items ++ ended (word.now ++ spaced number)) }
{
    put(out, word)?;
    put_spaced(out, number)?;
    put(out, b"\n")
}

/// Appends the line of a read that was granted: the bytes of the page at that version.
fn put_value(
    out: &mut Vec<u8>,
    tx: TxId,
    page: PageNo,
    version: Version,
    bytes: &[u8],
) -> Result<(), NoMemory>
    ensures { OnOk result (out.new.items ≡ out.old.items ++ ended (reply_line (Value tx page version bytes.now))) }
{
    put(out, b"value")?;
    put_spaced_tx(out, tx)?;
    put_spaced(out, page as u64)?;
    put_spaced(out, version)?;
    put(out, b" ")?;
    put_bytes(out, bytes)?;
    put(out, b"\n")
}

/// Appends the line of a write that was granted, over a page at that version.
fn put_done(out: &mut Vec<u8>, tx: TxId, page: PageNo, version: Version) -> Result<(), NoMemory>
    ensures { OnOk result (out.new.items ≡ out.old.items ++ ended (reply_line (Done tx page version))) }
{
    put(out, b"done")?;
    put_spaced_tx(out, tx)?;
    put_spaced(out, page as u64)?;
    put_spaced(out, version)?;
    put(out, b"\n")
}

/// Appends the line of an access that waits.
fn put_waits(out: &mut Vec<u8>, tx: TxId, page: PageNo) -> Result<(), NoMemory>
    ensures { OnOk result (out.new.items ≡ out.old.items ++ ended (reply_line (Waits tx page))) }
{
    put(out, b"waits")?;
    put_spaced_tx(out, tx)?;
    put_spaced(out, page as u64)?;
    put(out, b"\n")
}

/// Appends the line of a refusal.
fn put_refused(out: &mut Vec<u8>, reason: Reason) -> Result<(), NoMemory>
    ensures { OnOk result (out.new.items ≡ out.old.items ++ ended (reply_line (Refused reason))) }
{
    put(out, b"refused ")?;
    put_reason(out, reason)?;
    put(out, b"\n")
}

/// Appends the number and the name of a refusal, and of `BadView` the rule that is broken.
fn put_reason(out: &mut Vec<u8>, reason: Reason) -> Result<(), NoMemory>
    ensures { OnOk result (out.new.items ≡ out.old.items ++ reason_text reason) }
{
    match reason {
        Reason::NoNode => put(out, b"1 NoNode"),
        Reason::Down => put(out, b"2 Down"),
        Reason::NotInView => put(out, b"3 NotInView"),
        Reason::NoTx => put(out, b"4 NoTx"),
        Reason::TxWaits => put(out, b"5 TxWaits"),
        Reason::NoPage => put(out, b"6 NoPage"),
        Reason::BadRange => put(out, b"7 BadRange"),
        Reason::VersionEnd => put(out, b"8 VersionEnd"),
        Reason::NoFrame => put(out, b"9 NoFrame"),
        Reason::EmptyLink => put(out, b"10 EmptyLink"),
        Reason::NoCopy => put(out, b"11 NoCopy"),
        Reason::Pinned => put(out, b"12 Pinned"),
        Reason::NotOwner => put(out, b"13 NotOwner"),
        Reason::BadView { rule } => put_bad_view(out, rule),
        Reason::NoView => put(out, b"15 NoView"),
        Reason::StillUp => put(out, b"16 StillUp"),
        Reason::SerialEnd => put(out, b"17 SerialEnd"),
        Reason::TooMany => put(out, b"18 TooMany"),
    }
}

/// Appends the number and the name of the refusal of a view, and the rule that is broken.
fn put_bad_view(out: &mut Vec<u8>, rule: u8) -> Result<(), NoMemory>
    ensures { OnOk result (out.new.items ≡ out.old.items ++ (codes "14 BadView" ++ spaced rule)) }
{
    put(out, b"14 BadView")?;
    put_spaced(out, rule as u64)
}
