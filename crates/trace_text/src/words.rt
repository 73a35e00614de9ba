ghost use Rattle.std.specs.Prelude.{◌≡◌, ◌++◌, OnOk};
ghost use Rattle.std.specs.Fmt.{decimal};
ghost use Rattle.text_rules.specs.ScheduleLine.{spaced, tx_text, bytes_text};
ghost use Rattle.text_rules.specs.TraceText.{ended, spaced_tx, mode_text, version_text};

use itoa::Buffer;
use pcl_base::{Mode, NoMemory, TxId, Version};

/// Appends bytes.
pub(crate) fn put(out: &mut Vec<u8>, bytes: &[u8]) -> Result<(), NoMemory>
    ensures { OnOk result (out.new.items ≡ out.old.items ++ bytes.now) }
{
    Ok(out.extend_from_slice(bytes)?)
}

/// Appends a line.
pub(crate) fn put_line(out: &mut Vec<u8>, line: &[u8]) -> Result<(), NoMemory>
    ensures { OnOk result (out.new.items ≡ out.old.items ++ ended line.now) }
{
    put(out, line)?;
    put(out, b"\n")
}

/// Appends a number.
pub(crate) fn put_number(out: &mut Vec<u8>, number: u64) -> Result<(), NoMemory>
    ensures { OnOk result (out.new.items ≡ out.old.items ++ decimal number) }
{
    put(out, Buffer::new().format(number).as_bytes())
}

/// Appends a number after a space.
pub(crate) fn put_spaced(out: &mut Vec<u8>, number: u64) -> Result<(), NoMemory>
    ensures { OnOk result (out.new.items ≡ out.old.items ++ spaced number) }
{
    put(out, b" ")?;
    put_number(out, number)
}

/// Appends a transaction's name.
pub(crate) fn put_tx(out: &mut Vec<u8>, tx: TxId) -> Result<(), NoMemory>
    ensures { OnOk result (out.new.items ≡ out.old.items ++ tx_text tx) }
{
    put_number(out, tx.node as u64)?;
    put(out, b".")?;
    put_number(out, tx.born as u64)?;
    put(out, b".")?;
    put_number(out, tx.serial as u64)
}

/// Appends a transaction's name after a space.
pub(crate) fn put_spaced_tx(out: &mut Vec<u8>, tx: TxId) -> Result<(), NoMemory>
    ensures { OnOk result (out.new.items ≡ out.old.items ++ spaced_tx tx) }
{
    put(out, b" ")?;
    put_tx(out, tx)
}

/// Appends bytes as pairs of digits, or `-` for none.
pub(crate) fn put_bytes(out: &mut Vec<u8>, bytes: &[u8]) -> Result<(), NoMemory>
    ensures { OnOk result (out.new.items ≡ out.old.items ++ bytes_text bytes.now) }
{
    if bytes.is_empty() {
        return put(out, b"-");
    }
    let digits = hex::encode(*out.allocator(), bytes)?;
    put(out, digits.as_bytes())
}

/// Appends a mode.
pub(crate) fn put_mode(out: &mut Vec<u8>, mode: Mode) -> Result<(), NoMemory>
    ensures { OnOk result (out.new.items ≡ out.old.items ++ mode_text mode) }
{
    match mode {
        Mode::Shared => put(out, b"S"),
        Mode::Exclusive => put(out, b"X"),
    }
}

/// Appends a version, or `-` for none.
pub(crate) fn put_version(out: &mut Vec<u8>, version: Option<Version>) -> Result<(), NoMemory>
    ensures { OnOk result (out.new.items ≡ out.old.items ++ version_text version) }
{
    match version {
        Some(version) => put_number(out, version),
        None => put(out, b"-"),
    }
}
