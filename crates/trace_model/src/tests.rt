use super::*;
use pcl_base::{Config, Event, Items, NodeNo, Page, Reason, Reply, TxId};
use std::alloc::{AllocError, Global};
use std::test::Fail;

/// The first transaction of a node.
fn first(node: NodeNo) -> TxId {
    TxId {
        node,
        born: 1,
        serial: 1,
    }
}

fn bytes_of(alloc: Global, bytes: &[u8]) -> Result<Page, AllocError> {
    Ok(Items::of(Vec::from_slice(alloc, bytes)?))
}

fn write(alloc: Global, place: u32, byte: u8) -> Result<Event, AllocError> {
    Ok(Event::Write {
        tx: first(0),
        page: 1,
        place,
        bytes: bytes_of(alloc, &[byte])?,
    })
}

fn value(alloc: Global, tx: TxId, page: u32, bytes: &[u8]) -> Result<Reply, AllocError> {
    Ok(Reply::Value {
        tx,
        page,
        version: 0,
        bytes: bytes_of(alloc, bytes)?,
    })
}

/// An entry with one reply.
fn entry(alloc: Global, event: Event, reply: Reply) -> Result<Entry, AllocError> {
    Ok(Entry {
        event,
        replies: Items::of(vec![in alloc; reply]?),
        sent: Items::new(alloc),
        halted: None,
    })
}

/// A commit whose record is kept whole by a stop.
fn kept(alloc: Global, tx: TxId) -> Entry {
    Entry {
        event: Event::Commit { tx },
        replies: Items::new(alloc),
        sent: Items::new(alloc),
        halted: Some(Halt {
            call: Call::Force,
            kept: Some(tx),
        }),
    }
}

/// A write waits, and a second one is refused meanwhile; another node's transaction reads page 0;
/// the write is granted and read, the other transaction commits, and then the first, at a stop.
fn entries(alloc: Global) -> Result<Vec<Entry>, AllocError> {
    let (tx, other) = (first(0), first(1));
    let (page, version) = (1, 0);
    let deliver = Event::Deliver { from: 1, to: 0 };
    let refused = Reply::Refused {
        reason: Reason::TxWaits,
    };
    Ok(vec![in alloc;
        entry(alloc, write(alloc, 0, 7)?, Reply::Waits { tx, page })?,
        entry(alloc, write(alloc, 3, 9)?, refused)?,
        entry(
            alloc,
            Event::Read { tx: other, page: 0 },
            value(alloc, other, 0, &[0, 0])?
        )?,
        entry(alloc, deliver, Reply::Done { tx, page, version })?,
        entry(
            alloc,
            Event::Read { tx, page },
            value(alloc, tx, page, &[7, 0])?
        )?,
        entry(
            alloc,
            Event::Commit { tx: other },
            Reply::Committed { tx: other }
        )?,
        kept(alloc, tx),
    ]?)
}

fn trace(alloc: Global) -> Result<Trace, Fail> {
    let config = Config::new(2, 2, 8, 4)?;
    let mut trace = Trace::new(alloc, &config);
    for entry in entries(alloc)? {
        trace.reserve(1)?;
        trace.push(entry);
    }
    Ok(trace)
}

#[test]
fn the_first_script_has_the_write_that_was_not_refused(rt: HostRuntime) -> Result<(), Fail> {
    let alloc = rt.alloc();
    let script = trace(alloc)?.script(alloc, first(0))?;
    let steps = vec![in alloc;
        Step::Write {
            page: 1,
            place: 0,
            bytes: bytes_of(alloc, &[7])?
        },
        Step::Read {
            page: 1,
            bytes: bytes_of(alloc, &[7, 0])?
        },
    ]?;
    assert_eq!(rt; script.steps, Items::of(steps));
    Ok(())
}

#[test]
fn a_stop_that_keeps_the_record_commits(rt: HostRuntime) -> Result<(), Fail> {
    let alloc = rt.alloc();
    let serial = trace(alloc)?.serial(alloc)?;
    assert_eq!(rt; serial.as_slice(), [first(1), first(0)].as_slice());
    Ok(())
}
