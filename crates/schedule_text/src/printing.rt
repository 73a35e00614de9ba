ghost use Rattle.std.specs.Prelude.{◌≡◌, ◌++◌, map, codes, Some, OnOk, IfOk};
ghost use Rattle.std.specs.Fmt.{decimal};
ghost use Rattle.text_rules.specs.ScheduleLine.{HasLine, line_of, spaced, tx_text, bytes_text, flag_text, numbers_text};
ghost use Rattle.text_rules.specs.ReadEvent.{event_of};
ghost use Rattle.schedule_text.specs.Seen.{owner_text};

use itoa::Buffer;
use pcl_base::{Event, NoMemory, TxId};
use std::alloc::Global;

/// Prints the line of an event, without its newline: reading it gives the event back.
///
/// The event must have a line: its node, page, place and other numbers are within their limits of
/// docs/formats.md.
pub fn print_event(alloc: Global, event: &Event) -> Result<Vec<u8>, NoMemory>
    requires { HasLine event.now }
    ensures line { IfOk result (λ line. line.items ≡ line_of event.now) }
    ensures read { IfOk result (λ line. event_of line.items ≡ Some event.now) }
{
    let mut out = Vec::new(alloc);
    put_event(alloc, &mut out, event)?;
    Ok(out)
}

/// Appends the line of an event.
fn put_event(alloc: Global, out: &mut Vec<u8>, event: &Event) -> Result<(), NoMemory>
    ensures { OnOk result (out.new.items ≡ out.old.items ++ line_of event.now) }
{
    match event {
        Event::Begin { node } => put_node(out, b"begin ", *node),
        Event::Read { tx, page } => put_read(out, *tx, *page),
        Event::Write {
            tx,
            page,
            place,
            bytes,
        } => put_write(alloc, out, *tx, *page, *place, bytes.as_slice()),
        Event::Commit { tx } => put_tx(out, b"commit ", *tx),
        Event::Abort { tx } => put_tx(out, b"abort ", *tx),
        Event::Deliver { from, to } => put_two(out, b"deliver ", *from, *to as u32),
        Event::Evict { node, page } => put_two(out, b"evict ", *node, *page),
        Event::Flush { node, page } => put_two(out, b"flush ", *node, *page),
        Event::Crash { node } => put_node(out, b"crash ", *node),
        Event::View { live, owners } => put_view(out, live.as_slice(), owners.as_slice()),
        Event::Install { node } => put_node(out, b"install ", *node),
        Event::Reopen => put(out, b"reopen"),
        Event::Arm { node, call, kept } => put_arm(out, *node, *call, *kept),
        Event::Cut { node } => put_node(out, b"cut ", *node),
    }
}

/// Appends bytes.
fn put(out: &mut Vec<u8>, bytes: &[u8]) -> Result<(), NoMemory>
    ensures { OnOk result (out.new.items ≡ out.old.items ++ bytes.now) }
{
    Ok(out.extend_from_slice(bytes)?)
}

/// Appends a number.
fn put_number(out: &mut Vec<u8>, number: u32) -> Result<(), NoMemory>
    ensures { OnOk result (out.new.items ≡ out.old.items ++ decimal number) }
{
    put(out, Buffer::new().format(number).as_bytes())
}

/// Appends a number after a space.
fn put_spaced(out: &mut Vec<u8>, number: u32) -> Result<(), NoMemory>
    ensures { OnOk result (out.new.items ≡ out.old.items ++ spaced number) }
{
    put(out, b" ")?;
    put_number(out, number)
}

/// Appends a word and a node.
fn put_node(out: &mut Vec<u8>, word: &[u8], node: u8) -> Result<(), NoMemory>
    ensures { OnOk result (out.new.items ≡ out.old.items ++ (word.now ++ decimal node)) }
{
    put(out, word)?;
    put_number(out, node as u32)
}

/// Appends a word, a node and one number more.
fn put_two(out: &mut Vec<u8>, word: &[u8], node: u8, number: u32) -> Result<(), NoMemory>
    ensures { OnOk result (out.new.items ≡ out.old.items ++ (word.now ++ decimal node ++ spaced number)) }
{
    put_node(out, word, node)?;
    put_spaced(out, number)
}

/// Appends a word and a transaction's name.
fn put_tx(out: &mut Vec<u8>, word: &[u8], tx: TxId) -> Result<(), NoMemory>
    ensures { OnOk result (out.new.items ≡ out.old.items ++ (word.now ++ tx_text tx)) }
{
    put_node(out, word, tx.node)?;
    put(out, b".")?;
    put_number(out, tx.born)?;
    put(out, b".")?;
    put_number(out, tx.serial)
}

/// Appends the line of a read.
fn put_read(out: &mut Vec<u8>, tx: TxId, page: u32) -> Result<(), NoMemory>
    ensures { OnOk result (out.new.items ≡ out.old.items ++ (codes "read " ++ tx_text tx ++ spaced page)) }
{
    put_tx(out, b"read ", tx)?;
    put_spaced(out, page)
}

/// Appends the line of a write.
fn put_write(
    alloc: Global,
    out: &mut Vec<u8>,
    tx: TxId,
    page: u32,
    place: u32,
    bytes: &[u8],
) -> Result<(), NoMemory>
    ensures { OnOk result (out.new.items ≡ out.old.items ++ (codes "write " ++ tx_text tx ++ spaced page ++ spaced place ++ codes " " ++ bytes_text bytes.now)) }
{
    put_tx(out, b"write ", tx)?;
    put_spaced(out, page)?;
    put_spaced(out, place)?;
    put(out, b" ")?;
    put_bytes(alloc, out, bytes)
}

/// Appends bytes as pairs of digits, or `-` for none.
fn put_bytes(alloc: Global, out: &mut Vec<u8>, bytes: &[u8]) -> Result<(), NoMemory>
    ensures { OnOk result (out.new.items ≡ out.old.items ++ bytes_text bytes.now) }
{
    if bytes.is_empty() {
        return put(out, b"-");
    }
    let digits = hex::encode(alloc, bytes)?;
    put(out, digits.as_bytes())
}

/// Appends the line of an arming.
fn put_arm(out: &mut Vec<u8>, node: u8, call: u32, kept: u32) -> Result<(), NoMemory>
    ensures { OnOk result (out.new.items ≡ out.old.items ++ (codes "arm " ++ decimal node ++ spaced call ++ spaced kept)) }
{
    put_two(out, b"arm ", node, call)?;
    put_spaced(out, kept)
}

/// Appends the line of a view.
fn put_view(out: &mut Vec<u8>, live: &[bool], owners: &[u8]) -> Result<(), NoMemory>
    ensures { OnOk result (out.new.items ≡ out.old.items ++ (codes "view " ++ map flag_text live.now ++ codes " " ++ numbers_text owners.now)) }
{
    put(out, b"view ")?;
    put_flags(out, live)?;
    put(out, b" ")?;
    put_owners(out, owners)
}

/// Appends a flag for each node.
fn put_flags(out: &mut Vec<u8>, live: &[bool]) -> Result<(), NoMemory>
    ensures { OnOk result (out.new.items ≡ out.old.items ++ map flag_text live.now) }
{
    for is_live in live {
        out.push(flag(*is_live))?;
    }
    Ok(())
}

/// The flag of a node.
fn flag(is_live: bool) -> u8
    ensures { result ≡ flag_text is_live }
{
    if is_live { b'1' } else { b'0' }
}

/// Appends numbers with commas between them.
fn put_owners(out: &mut Vec<u8>, owners: &[u8]) -> Result<(), NoMemory>
    ensures { OnOk result (out.new.items ≡ out.old.items ++ numbers_text owners.now) }
{
    for i in 0..owners.len() {
        put_owner(out, i, owners[i])?;
    }
    Ok(())
}

/// Appends the owner of a partition, after a comma where it isn't the first.
fn put_owner(out: &mut Vec<u8>, partition: usize, owner: u8) -> Result<(), NoMemory>
    ensures { OnOk result (out.new.items ≡ out.old.items ++ owner_text partition owner) }
{
    if partition == 0 {
        return put_number(out, owner as u32);
    }
    put(out, b",")?;
    put_number(out, owner as u32)
}
