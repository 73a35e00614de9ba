//! A schedule of one node, replayed in memory.

use pcl_base::{MemSink, MemSource};
use replay::replay;
use std::alloc::{AllocError, Global};

/// The most bytes that a source gives and a sink takes at once.
const PIECE: usize = 65_536;

/// What a replay in memory took and gave.
pub(crate) struct Counts {
    pub(crate) input: usize,
    pub(crate) output: usize,
    pub(crate) status: u8,
}

/// Replays a schedule of one node with so many events.
pub(crate) fn run(alloc: Global, lines: u32) -> Result<Counts, AllocError> {
    let schedule = schedule(alloc, lines)?;
    let input = schedule.len();
    let capacity = lines as usize * 1_200 + 1_000;
    let mut source = MemSource::new(schedule, PIECE, Vec::new(alloc));
    let Ok(mut sink) = MemSink::open(alloc, capacity, PIECE, Vec::new(alloc)) else {
        return Err(AllocError);
    };
    let status = replay(alloc, &mut source, &mut sink, false);
    Ok(Counts {
        input,
        output: sink.bytes().len(),
        status,
    })
}

/// A schedule of one node over 1,000 pages of 512 bytes: transactions of eight lines each.
fn schedule(alloc: Global, lines: u32) -> Result<Vec<u8>, AllocError> {
    let mut text = Vec::new(alloc);
    text.extend_from_slice(b"pcl 1 1 1000 512 4096\n")?;
    for line in 0..lines {
        let event = event(alloc, line)?;
        text.extend_from_slice(event.as_bytes())?;
    }
    Ok(text)
}

/// The event of a line: a begin, six accesses, two of them writes, and a commit.
fn event(alloc: Global, line: u32) -> Result<String, AllocError> {
    let serial = line / 8 + 1;
    let page = line % 1_000;
    match line % 8 {
        0 => format!(in alloc; "begin 0\n"),
        7 => format!(in alloc; "commit 0.1.{serial}\n"),
        1 | 4 => format!(in alloc; "write 0.1.{serial} {page} 0 07\n"),
        _ => format!(in alloc; "read 0.1.{serial} {page}\n"),
    }
}
