use super::*;
use pcl_base::{Config, CopyKind, Entry, Event, Items, Mode, NodeNo, Note, Reply, Sent, TxId};
use std::alloc::{AllocError, Global};
use std::test::Fail;
use trace_model::Trace;

const SUMMARY: &[u8] = b"events 2
begun 0
values 0
done 0
waits 0
committed 18446744073709551615
aborted 0
held 0
dropped 0
refused 1
halted 2
requests 0
grants 1
releases 1
revokes 0
returns 0
reports 0
images 1
";

#[test]
fn each_count_has_its_line(rt: HostRuntime) -> Result<(), Fail> {
    let mut tally = Tally::new();
    assert_eq!(rt; tally, Tally::default());
    tally.events = 2;
    tally.committed = u64::MAX;
    tally.refused = 1;
    tally.halted = 2;
    tally.grants = 1;
    tally.releases = 1;
    tally.images = 1;
    assert_eq!(rt; tally.print(rt.alloc())?.as_slice(), SUMMARY);
    Ok(())
}

/// What happens in an entry. Each node has one transaction, and the page is 1.
#[derive(Clone, Copy)]
enum Act {
    /// A transaction of node 1 begins.
    Begin,
    /// Node 0 reads, and waits.
    Read,
    /// Node 1 writes, and waits.
    Write,
    /// Node 1 takes a message.
    Take,
    /// Node 0 takes one.
    TakeBack,
    /// Node 0 commits.
    Commit,
    /// Node 1 is lost.
    Crash,
}

/// What is sent. Node 0 asks, releases and returns; node 1 grants and revokes.
#[derive(Clone, Copy)]
enum Say {
    Request,
    Lock,
    Right,
    Release,
    Revoke,
    Return,
}

type Moves = &'static [(Act, &'static [Say])];

// The moves of a trace, and the first entry outside the account.
const CASES: [(Moves, Option<usize>); 9] = [
    (
        &[
            (Act::Read, &[Say::Request]),
            (Act::Take, &[Say::Lock]),
            (Act::TakeBack, &[]),
            (Act::Commit, &[Say::Release]),
        ],
        None,
    ),
    (
        &[(Act::Begin, &[Say::Lock]), (Act::Begin, &[Say::Lock])],
        Some(1),
    ),
    (
        &[
            (Act::Read, &[Say::Request]),
            (Act::Take, &[Say::Lock, Say::Lock]),
        ],
        Some(2),
    ),
    (
        &[
            (Act::Read, &[Say::Request]),
            (Act::Take, &[Say::Right]),
            (Act::TakeBack, &[]),
            (Act::Commit, &[Say::Release]),
        ],
        Some(4),
    ),
    (
        &[
            (Act::Read, &[Say::Request]),
            (Act::Take, &[Say::Right]),
            (Act::TakeBack, &[]),
            (Act::Write, &[Say::Revoke]),
            (Act::TakeBack, &[Say::Return]),
            (Act::Commit, &[Say::Release]),
        ],
        None,
    ),
    (
        &[
            (Act::Read, &[Say::Request]),
            (Act::Take, &[Say::Right]),
            (Act::TakeBack, &[]),
            (Act::Begin, &[Say::Revoke]),
        ],
        Some(4),
    ),
    (
        &[
            (Act::Read, &[Say::Request]),
            (Act::Take, &[Say::Right]),
            (Act::TakeBack, &[]),
            (Act::Write, &[Say::Revoke]),
            (Act::TakeBack, &[Say::Return, Say::Return]),
        ],
        Some(5),
    ),
    (
        &[
            (Act::Crash, &[]),
            (Act::Read, &[Say::Request]),
            (Act::Take, &[Say::Lock]),
        ],
        Some(3),
    ),
    (&[], None),
];

fn tx(node: NodeNo) -> TxId {
    TxId {
        node,
        born: 1,
        serial: 1,
    }
}

fn event(alloc: Global, act: Act) -> Event {
    match act {
        Act::Begin => Event::Begin { node: 1 },
        Act::Read => Event::Read { tx: tx(0), page: 1 },
        Act::Write => Event::Write {
            tx: tx(1),
            page: 1,
            place: 0,
            bytes: Items::new(alloc),
        },
        Act::Take => Event::Deliver { from: 0, to: 1 },
        Act::TakeBack => Event::Deliver { from: 1, to: 0 },
        Act::Commit => Event::Commit { tx: tx(0) },
        Act::Crash => Event::Crash { node: 1 },
    }
}

fn reply(act: Act) -> Reply {
    match act {
        Act::Begin => Reply::Begun { tx: tx(1) },
        Act::Read => Reply::Waits { tx: tx(0), page: 1 },
        Act::Write => Reply::Waits { tx: tx(1), page: 1 },
        Act::Take => Reply::Taken,
        Act::TakeBack => Reply::Taken,
        Act::Commit => Reply::Committed { tx: tx(0) },
        Act::Crash => Reply::Crashed,
    }
}

fn grant(right: bool) -> Note {
    Note::Grant {
        tx: tx(0),
        page: 1,
        mode: Mode::Shared,
        right,
        version: 0,
        copy: CopyKind::OnDisk,
    }
}

fn sent(alloc: Global, say: Say) -> Result<Sent, AllocError> {
    let (from, note) = match say {
        Say::Request => (
            0,
            Note::Request {
                tx: tx(0),
                page: 1,
                mode: Mode::Shared,
                have: None,
            },
        ),
        Say::Lock => (1, grant(false)),
        Say::Right => (1, grant(true)),
        Say::Release => (
            0,
            Note::Release {
                tx: tx(0),
                page: 1,
                change: None,
            },
        ),
        Say::Revoke => (1, Note::Revoke { page: 1 }),
        Say::Return => (
            0,
            Note::Return {
                page: 1,
                readers: Items::of(vec![in alloc; tx(0)]?),
            },
        ),
    };
    Ok(Sent {
        from,
        to: if from == 0 { 1 } else { 0 },
        epoch: 1,
        note,
    })
}

fn entry(alloc: Global, act: Act, said: &[Say]) -> Result<Entry, Fail> {
    let mut all = Items::new(alloc);
    for say in said {
        all.push(sent(alloc, *say)?)?;
    }
    Ok(Entry {
        event: event(alloc, act),
        replies: Items::of(vec![in alloc; reply(act)]?),
        sent: all,
        halted: None,
    })
}

#[test]
fn the_first_entry_outside_the_account(rt: HostRuntime) -> Result<(), Fail> {
    let alloc = rt.alloc();
    let config = Config::new(2, 4, 8, 4)?;
    for (moves, fault) in CASES {
        let mut trace = Trace::new(alloc, &config);
        for (act, said) in moves {
            trace.reserve(1)?;
            trace.push(entry(alloc, *act, said)?);
        }
        assert_eq!(rt; accounted(alloc, &trace)?, fault);
    }
    Ok(())
}
