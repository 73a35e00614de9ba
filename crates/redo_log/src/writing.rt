ghost use Rattle.std.specs.Prelude.{◌≡◌, ◌+◌, ◌<◌, ◌≤◌, ◌^◌, ◌++◌, ◌∷◌, [], length, map, drop, replicate, All, OnOk, IfOk};
ghost use Rattle.std.specs.List.{concat};
ghost use Rattle.std.specs.Int.{w16, w32, w64, to_be_bytes};
ghost use Rattle.text_rules.specs.LogRecord.{mark_of, range_bytes, part_bytes, logged_bytes, body_bytes, record_bytes, IsRecord};
ghost use Rattle.redo_log.specs.Small.{IsSmallRange, AreSmallRanges, IsSmallPart, IsSmallLogged};

use pcl_base::{ChangedRange, Config, Logged, NoMemory, PageNo, Part, Record, Version};
use std::alloc::{AllocError, Global};

fn put16(out: &mut Vec<u8>, number: u16) -> Result<(), AllocError>
    ensures { OnOk result (out.new.items ≡ out.old.items ++ to_be_bytes w16 number) }
{
    out.extend_from_slice(&number.to_be_bytes())
}

fn put32(out: &mut Vec<u8>, number: u32) -> Result<(), AllocError>
    ensures { OnOk result (out.new.items ≡ out.old.items ++ to_be_bytes w32 number) }
{
    out.extend_from_slice(&number.to_be_bytes())
}

fn put64(out: &mut Vec<u8>, number: u64) -> Result<(), AllocError>
    ensures { OnOk result (out.new.items ≡ out.old.items ++ to_be_bytes w64 number) }
{
    out.extend_from_slice(&number.to_be_bytes())
}

/// A changed range: its place, its length and its bytes.
fn put_range(out: &mut Vec<u8>, range: &ChangedRange) -> Result<(), AllocError>
    requires { IsSmallRange range.now }
    ensures { OnOk result (out.new.items ≡ out.old.items ++ range_bytes range.now) }
{
    put16(out, range.place as u16)?;
    put16(out, range.bytes.len() as u16)?;
    out.extend_from_slice(range.bytes.as_slice())
}

/// The number of changed ranges, and the ranges.
fn put_ranges(out: &mut Vec<u8>, ranges: &[ChangedRange]) -> Result<(), AllocError>
    requires { AreSmallRanges ranges.now }
    ensures { OnOk result (out.new.items ≡ out.old.items ++ (to_be_bytes w16 (length ranges.now) ++ concat (map range_bytes ranges.now))) }
{
    put16(out, ranges.len() as u16)?;
    for range in ranges {
        put_range(out, range)?;
    }
    Ok(())
}

/// The whole page, or its changed ranges.
fn put_part(out: &mut Vec<u8>, part: &Part) -> Result<(), AllocError>
    requires { IsSmallPart part.now }
    ensures { OnOk result (out.new.items ≡ out.old.items ++ part_bytes part.now) }
{
    match part {
        Part::Image(bytes) => out.extend_from_slice(bytes.as_slice()),
        Part::Ranges(ranges) => put_ranges(out, ranges.as_slice()),
    }
}

/// The number of a changed page and its version.
fn put_head(out: &mut Vec<u8>, page: PageNo, version: Version) -> Result<(), AllocError>
    ensures { OnOk result (out.new.items ≡ out.old.items ++ (to_be_bytes w32 page ++ to_be_bytes w64 version)) }
{
    put32(out, page)?;
    put64(out, version)
}

/// A changed page: its number, its version and its part.
fn put_logged(out: &mut Vec<u8>, logged: &Logged) -> Result<(), AllocError>
    requires { IsSmallLogged logged.now }
    ensures { OnOk result (out.new.items ≡ out.old.items ++ logged_bytes logged.now) }
{
    put_head(out, logged.page, logged.version)?;
    put_part(out, &logged.part)
}

/// The number of changed pages, and the pages.
fn put_changes(out: &mut Vec<u8>, changes: &[Logged]) -> Result<(), AllocError>
    requires count { length changes.now < 2 ^ 32 }
    requires small { All IsSmallLogged changes.now }
    ensures { OnOk result (out.new.items ≡ out.old.items ++ (to_be_bytes w32 (length changes.now) ++ concat (map logged_bytes changes.now))) }
{
    put32(out, changes.len() as u32)?;
    for logged in changes {
        put_logged(out, logged)?;
    }
    Ok(())
}

/// The byte after the length: the node, and 128 more in format 2.
fn mark(changes: &[Logged], node: u8) -> u8
    requires { node < 16 }
    ensures { result ≡ mark_of changes.now node }
{
    match changes {
        [] => node,
        [first, ..] => match first.part {
            Part::Image(_) => node,
            Part::Ranges(_) => 128 + node,
        },
    }
}

/// A record behind its length.
fn put_body(out: &mut Vec<u8>, r: &Record) -> Result<(), AllocError>
    requires node { r.now.tx.node < 16 }
    requires count { length r.now.changes < 2 ^ 32 }
    requires small { All IsSmallLogged r.now.changes }
    ensures { OnOk result (out.new.items ≡ out.old.items ++ body_bytes r.now) }
{
    out.push(mark(r.changes.as_slice(), r.tx.node))?;
    put32(out, r.tx.born)?;
    put32(out, r.tx.serial)?;
    put_changes(out, r.changes.as_slice())
}

/// Puts the length of a record into its first four bytes.
fn set_length(out: &mut [u8], count: usize)
    requires room { 4 ≤ length out.old }
    requires small { count < 2 ^ 32 }
    ensures { out.new ≡ to_be_bytes w32 count ++ drop 4 out.old }
{
    put_front(out, &(count as u32).to_be_bytes());
}

/// Puts some bytes over the first ones.
fn put_front(out: &mut [u8], front: &[u8])
    requires { length front.now ≤ length out.old }
    ensures { out.new ≡ front.now ++ drop (length front.now) out.old }
{
    out[..front.len()].copy_from_slice(front);
}

/// The bytes of a record, in the format of its parts. It needs a record that has bytes: its node
/// and its pages are those of the configuration, its pages rise and are at least one, and its
/// parts are all of one kind.
pub fn encode(alloc: Global, config: &Config, r: &Record) -> Result<Vec<u8>, NoMemory>
    requires { IsRecord config.now r.now }
    ensures { IfOk result (λ bytes. bytes.items ≡ record_bytes r.now) }
{
    let _limits = config.size();
    let mut out = Vec::new(alloc);
    put32(&mut out, 0)?;
    put_body(&mut out, r)?;
    let count = out.len();
    set_length(&mut out, count);
    Ok(out)
}
