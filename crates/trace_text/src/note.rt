ghost use Rattle.std.specs.Prelude.{◌≡◌, ◌++◌, OnOk, codes, map};
ghost use Rattle.text_rules.specs.ScheduleLine.{spaced};
ghost use Rattle.text_rules.specs.TraceText.{change_text, copy_text, ended, list_text, lock_text, mark_text, mode_text, note_text, right_text, sent_line, spaced_tx, wait_text};
ghost use Rattle.pcl_base.specs.declared.trace.Note.TheVariants.{Request, Grant, Release, Revoke, Return, Report};

use crate::list::put_list;
use crate::words::{put, put_mode, put_number, put_spaced, put_spaced_tx, put_version};
use pcl_base::{
    CopyKind, Mode, NoMemory, NodeNo, Note, PageNo, ReportLock, ReportRight, ReportWait, Sent,
    TxId, Version,
};

/// Appends the line of a message.
pub(crate) fn put_sent(out: &mut Vec<u8>, sent: &Sent) -> Result<(), NoMemory>
    ensures { OnOk result (out.new.items ≡ out.old.items ++ ended (sent_line sent.now)) }
{
    put_link(out, sent.from, sent.to, sent.epoch)?;
    put_note(out, &sent.note)?;
    put(out, b"\n")
}

/// Appends the front of a message's line: its link and its epoch.
fn put_link(out: &mut Vec<u8>, from: NodeNo, to: NodeNo, epoch: u32) -> Result<(), NoMemory>
    ensures { OnOk result (out.new.items ≡ out.old.items ++ (codes "send" ++ spaced from ++ spaced to ++ spaced epoch ++ codes " ")) }
{
    put(out, b"send")?;
    put_spaced(out, from as u64)?;
    put_spaced(out, to as u64)?;
    put_spaced(out, epoch as u64)?;
    put(out, b" ")
}

/// Appends what a message says, without the bytes of images.
fn put_note(out: &mut Vec<u8>, note: &Note) -> Result<(), NoMemory>
    ensures { OnOk result (out.new.items ≡ out.old.items ++ note_text note.now) }
{
    match note {
        Note::Request {
            tx,
            page,
            mode,
            have,
        } => put_request(out, *tx, *page, *mode, *have),
        Note::Grant {
            tx,
            page,
            mode,
            right,
            version,
            copy,
        } => put_grant(out, *tx, *page, *mode, *right, *version, *copy),
        Note::Release { tx, page, change } => put_release(out, *tx, *page, *change),
        Note::Revoke { page } => put_revocation(out, *page),
        Note::Return { page, readers } => put_return(out, *page, readers.as_slice()),
        Note::Report {
            partition,
            waits,
            locks,
            rights,
        } => put_report(
            out,
            *partition,
            waits.as_slice(),
            locks.as_slice(),
            rights.as_slice(),
        ),
    }
}

/// Appends a word, a transaction, a page and a mode.
fn put_asked(
    out: &mut Vec<u8>,
    word: &[u8],
    tx: TxId,
    page: PageNo,
    mode: Mode,
) -> Result<(), NoMemory>
    ensures { OnOk result (out.new.items ≡ out.old.items ++ (word.now ++ spaced_tx tx ++ spaced page ++ codes " " ++ mode_text mode)) }
{
    put(out, word)?;
    put_spaced_tx(out, tx)?;
    put_spaced(out, page as u64)?;
    put(out, b" ")?;
    put_mode(out, mode)
}

/// Appends a request.
fn put_request(
    out: &mut Vec<u8>,
    tx: TxId,
    page: PageNo,
    mode: Mode,
    have: Option<Version>,
) -> Result<(), NoMemory>
    ensures { OnOk result (out.new.items ≡ out.old.items ++ note_text (Request tx page mode have)) }
{
    put_asked(out, b"request", tx, page, mode)?;
    put(out, b" ")?;
    put_version(out, have)
}

/// Appends a grant.
fn put_grant(
    out: &mut Vec<u8>,
    tx: TxId,
    page: PageNo,
    mode: Mode,
    right: bool,
    version: Version,
    copy: CopyKind,
) -> Result<(), NoMemory>
    ensures { OnOk result (out.new.items ≡ out.old.items ++ note_text (Grant tx page mode right version copy)) }
{
    put_asked(out, b"grant", tx, page, mode)?;
    put_right(out, right)?;
    put_spaced(out, version)?;
    put_copy(out, copy)
}

/// Appends, after a space, whether a grant carries a lock or a right.
fn put_right(out: &mut Vec<u8>, right: bool) -> Result<(), NoMemory>
    ensures { OnOk result (out.new.items ≡ out.old.items ++ (codes " " ++ right_text right)) }
{
    if right {
        put(out, b" right")
    } else {
        put(out, b" lock")
    }
}

/// Appends, after a space, where the page of a grant is.
fn put_copy(out: &mut Vec<u8>, copy: CopyKind) -> Result<(), NoMemory>
    ensures { OnOk result (out.new.items ≡ out.old.items ++ (codes " " ++ copy_text copy)) }
{
    match copy {
        CopyKind::Current => put(out, b" current"),
        CopyKind::Image => put(out, b" image"),
        CopyKind::OnDisk => put(out, b" disk"),
    }
}

/// Appends a release.
fn put_release(
    out: &mut Vec<u8>,
    tx: TxId,
    page: PageNo,
    change: Option<Version>,
) -> Result<(), NoMemory>
    ensures { OnOk result (out.new.items ≡ out.old.items ++ note_text (Release tx page change)) }
{
    put(out, b"release")?;
    put_spaced_tx(out, tx)?;
    put_spaced(out, page as u64)?;
    put(out, b" ")?;
    put_change(out, change)
}

/// Appends what a release brings: a version and the word `image`, or `-` for nothing.
fn put_change(out: &mut Vec<u8>, change: Option<Version>) -> Result<(), NoMemory>
    ensures { OnOk result (out.new.items ≡ out.old.items ++ change_text change) }
{
    match change {
        Some(version) => {
            put_number(out, version)?;
            put(out, b" image")
        }
        None => put(out, b"-"),
    }
}

/// Appends a revocation.
fn put_revocation(out: &mut Vec<u8>, page: PageNo) -> Result<(), NoMemory>
    ensures { OnOk result (out.new.items ≡ out.old.items ++ note_text (Revoke page)) }
{
    put(out, b"revoke")?;
    put_spaced(out, page as u64)
}

/// Appends the answer to a revocation.
fn put_return(out: &mut Vec<u8>, page: PageNo, readers: &[TxId]) -> Result<(), NoMemory>
    ensures { OnOk result (out.new.items ≡ out.old.items ++ note_text (Return page readers.now)) }
{
    put(out, b"return")?;
    put_spaced(out, page as u64)?;
    put(out, b" ")?;
    put_list(out, readers)
}

/// Appends a report.
fn put_report(
    out: &mut Vec<u8>,
    partition: NodeNo,
    waits: &[ReportWait],
    locks: &[ReportLock],
    rights: &[ReportRight],
) -> Result<(), NoMemory>
    ensures { OnOk result (out.new.items ≡ out.old.items ++ note_text (Report partition waits.now locks.now rights.now)) }
{
    put(out, b"report")?;
    put_spaced(out, partition as u64)?;
    put(out, b" waits ")?;
    put_list(out, waits)?;
    put_held(out, locks, rights)
}

/// Appends the locks and the rights of a report.
fn put_held(out: &mut Vec<u8>, locks: &[ReportLock], rights: &[ReportRight]) -> Result<(), NoMemory>
    ensures { OnOk result (out.new.items ≡ out.old.items ++ (codes " locks " ++ list_text (map lock_text locks.now) ++ codes " rights " ++ list_text (map mark_text rights.now))) }
{
    put(out, b" locks ")?;
    put_list(out, locks)?;
    put(out, b" rights ")?;
    put_list(out, rights)
}
