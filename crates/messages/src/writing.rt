ghost use Rattle.std.specs.Prelude.{◌≡◌, ◌++◌, ◌∷◌, [], ◌<◌, ◌^◌, ℕ, List, length, OnOk, IfOk};
ghost use Rattle.std.specs.Int.{w32, w64, to_be_bytes};
ghost use Rattle.text_rules.specs.MessageBytes.{tx_bytes, mode_byte, flag_byte, version_bytes, copy_bytes, change_bytes, list_bytes, wait_bytes, lock_bytes, right_bytes, body_bytes, message_bytes};

use pcl_base::{
    Body, Change, CopyPart, Grant, Message, Mode, NoMemory, PageNo, Release, Report, ReportLock,
    ReportRight, ReportWait, Request, ReturnRight, TxId, Version,
};
use std::alloc::{AllocError, Global};

fn put32(out: &mut Vec<u8>, number: u32) -> Result<(), AllocError>
    ensures { OnOk result (out.new.items ≡ out.old.items ++ to_be_bytes w32 number) }
{
    out.extend_from_slice(&number.to_be_bytes())
}

fn put64(out: &mut Vec<u8>, number: u64) -> Result<(), AllocError>
    ensures { OnOk result (out.new.items ≡ out.old.items ++ to_be_bytes w64 number) }
{
    out.extend_from_slice(&number.to_be_bytes())
}

fn put_tx(out: &mut Vec<u8>, tx: TxId) -> Result<(), AllocError>
    ensures { OnOk result (out.new.items ≡ out.old.items ++ tx_bytes tx) }
{
    out.push(tx.node)?;
    put32(out, tx.born)?;
    put32(out, tx.serial)
}

fn mode_code(mode: Mode) -> u8
    ensures { result ≡ mode_byte mode }
{
    match mode {
        Mode::Shared => 1,
        Mode::Exclusive => 2,
    }
}

fn flag_code(flag: bool) -> u8
    ensures { result ≡ flag_byte flag }
{
    if flag { 1 } else { 0 }
}

fn put_version(out: &mut Vec<u8>, version: Option<Version>) -> Result<(), AllocError>
    ensures { OnOk result (out.new.items ≡ out.old.items ++ version_bytes version) }
{
    match version {
        None => Ok(out.push(0)?),
        Some(v) => {
            out.push(1)?;
            put64(out, v)
        }
    }
}

fn put_copy(out: &mut Vec<u8>, copy: &CopyPart) -> Result<(), AllocError>
    ensures { OnOk result (out.new.items ≡ out.old.items ++ copy_bytes copy.now) }
{
    match copy {
        CopyPart::Current => Ok(out.push(1)?),
        CopyPart::Image(bytes) => {
            out.push(2)?;
            out.extend_from_slice(bytes.as_slice())
        }
        CopyPart::OnDisk => Ok(out.push(3)?),
    }
}

fn put_change(out: &mut Vec<u8>, change: &Option<Change>) -> Result<(), AllocError>
    ensures { OnOk result (out.new.items ≡ out.old.items ++ change_bytes change.now) }
{
    match change {
        None => Ok(out.push(0)?),
        Some(change) => {
            out.push(1)?;
            put64(out, change.version)?;
            out.extend_from_slice(change.image.as_slice())
        }
    }
}

/// What stands in the lists of messages.
trait Put {
    ghost bytes: { Self → List ℕ };

    fn put(&self, out: &mut Vec<u8>) -> Result<(), AllocError>
        ensures { OnOk result (out.new.items ≡ out.old.items ++ bytes self.now) };
}

impl Put for TxId {
    ghost bytes = { tx_bytes };

    fn put(&self, out: &mut Vec<u8>) -> Result<(), AllocError> {
        put_tx(out, *self)
    }
}

impl Put for ReportWait {
    ghost bytes = { wait_bytes };

    fn put(&self, out: &mut Vec<u8>) -> Result<(), AllocError> {
        put_tx(out, self.tx)?;
        put32(out, self.page)?;
        out.push(mode_code(self.mode))?;
        put_version(out, self.have)
    }
}

impl Put for ReportLock {
    ghost bytes = { lock_bytes };

    fn put(&self, out: &mut Vec<u8>) -> Result<(), AllocError> {
        put_tx(out, self.tx)?;
        put32(out, self.page)?;
        Ok(out.push(mode_code(self.mode))?)
    }
}

impl Put for ReportRight {
    ghost bytes = { right_bytes };

    fn put(&self, out: &mut Vec<u8>) -> Result<(), AllocError> {
        put32(out, self.page)?;
        put64(out, self.version)
    }
}

/// A list whose count takes more than four bytes is want of memory.
fn put_list<T: Put>(out: &mut Vec<u8>, items: &[T]) -> Result<(), NoMemory>
    ensures { OnOk result (out.new.items ≡ out.old.items ++ list_bytes T.bytes items.now) }
{
    if items.len() > u32::MAX as usize {
        return Err(NoMemory);
    }
    put32(out, items.len() as u32)?;
    for item in items {
        item.put(out)?;
    }
    Ok(())
}

/// The mode of a grant and whether it carries a right.
fn put_lock(out: &mut Vec<u8>, mode: Mode, right: bool) -> Result<(), AllocError>
    ensures { OnOk result (out.new.items ≡ out.old.items ++ mode_byte mode ∷ flag_byte right ∷ []) }
{
    out.push(mode_code(mode))?;
    Ok(out.push(flag_code(right))?)
}

/// The version of a grant and what it says of the copy.
fn put_page(out: &mut Vec<u8>, version: Version, copy: &CopyPart) -> Result<(), AllocError>
    ensures { OnOk result (out.new.items ≡ out.old.items ++ (to_be_bytes w64 version ++ copy_bytes copy.now)) }
{
    put64(out, version)?;
    put_copy(out, copy)
}

/// The kind, the transaction and the page, with which most bodies begin.
fn put_head(out: &mut Vec<u8>, kind: u8, tx: TxId, page: PageNo) -> Result<(), AllocError>
    ensures { OnOk result (out.new.items ≡ out.old.items ++ kind ∷ (tx_bytes tx ++ to_be_bytes w32 page)) }
{
    out.push(kind)?;
    put_tx(out, tx)?;
    put32(out, page)
}

fn put_request(out: &mut Vec<u8>, r: &Request) -> Result<(), AllocError>
    ensures { OnOk result (out.new.items ≡ out.old.items ++ body_bytes (Body.Request r.now)) }
{
    put_head(out, 1, r.tx, r.page)?;
    out.push(mode_code(r.mode))?;
    put_version(out, r.have)
}

fn put_grant(out: &mut Vec<u8>, g: &Grant) -> Result<(), AllocError>
    ensures { OnOk result (out.new.items ≡ out.old.items ++ body_bytes (Body.Grant g.now)) }
{
    put_head(out, 2, g.tx, g.page)?;
    put_lock(out, g.mode, g.right)?;
    put_page(out, g.version, &g.copy)
}

fn put_release(out: &mut Vec<u8>, r: &Release) -> Result<(), AllocError>
    ensures { OnOk result (out.new.items ≡ out.old.items ++ body_bytes (Body.Release r.now)) }
{
    put_head(out, 3, r.tx, r.page)?;
    put_change(out, &r.change)
}

fn put_revocation(out: &mut Vec<u8>, page: u32) -> Result<(), AllocError>
    ensures { OnOk result (out.new.items ≡ out.old.items ++ body_bytes (Body.Revoke page)) }
{
    out.push(4)?;
    put32(out, page)
}

fn put_return(out: &mut Vec<u8>, r: &ReturnRight) -> Result<(), NoMemory>
    ensures { OnOk result (out.new.items ≡ out.old.items ++ body_bytes (Body.Return r.now)) }
{
    out.push(5)?;
    put32(out, r.page)?;
    put_list(out, r.readers.as_slice())
}

fn put_report(out: &mut Vec<u8>, r: &Report) -> Result<(), NoMemory>
    ensures { OnOk result (out.new.items ≡ out.old.items ++ body_bytes (Body.Report r.now)) }
{
    out.push(6)?;
    out.push(r.partition)?;
    put_list(out, r.waits.as_slice())?;
    put_list(out, r.locks.as_slice())?;
    put_list(out, r.rights.as_slice())
}

/// The bytes of a message (docs/formats.md, messages).
///
/// It answers [`NoMemory`] where there is none for the bytes, or where a list has more items than a
/// number of four bytes counts.
pub fn encode(alloc: Global, m: &Message) -> Result<Vec<u8>, NoMemory>
    ensures { IfOk result (λ bytes. bytes.items ≡ message_bytes m.now) }
{
    let mut out = Vec::new(alloc);
    put32(&mut out, m.epoch)?;
    match &m.body {
        Body::Request(r) => put_request(&mut out, r)?,
        Body::Grant(g) => put_grant(&mut out, g)?,
        Body::Release(r) => put_release(&mut out, r)?,
        Body::Revoke { page } => put_revocation(&mut out, *page)?,
        Body::Return(r) => put_return(&mut out, r)?,
        Body::Report(r) => put_report(&mut out, r)?,
    }
    Ok(out)
}
