use super::*;
use pcl_base::{
    Call, Config, CopyKind, Entry, Event, Halt, Items, Mode, Note, Reason, Reply, ReportLock,
    ReportRight, ReportWait, Sent, TxId,
};
use std::alloc::Global;
use std::test::Fail;

const TX: TxId = TxId {
    node: 15,
    born: 2,
    serial: 4_294_967_295,
};

const OTHER: TxId = TxId {
    node: 0,
    born: 1,
    serial: 1,
};

/// The line of a read of these bytes.
fn line_of_value(alloc: Global, bytes: &[u8]) -> Result<Vec<u8>, Fail> {
    let value = Reply::Value {
        tx: TX,
        page: 65_535,
        version: 18_446_744_073_709_551_615,
        bytes: Items::of(Vec::from_slice(alloc, bytes)?),
    };
    Ok(print_reply(alloc, &value)?)
}

#[test]
fn a_value_has_all_bytes(rt: HostRuntime) -> Result<(), Fail> {
    let alloc = rt.alloc();
    let four = line_of_value(alloc, &[0, 190, 239, 10])?;
    assert_eq!(rt;
        four.as_slice(),
        b"value 15.2.4294967295 65535 18446744073709551615 00beef0a\n".as_slice()
    );
    let none = line_of_value(alloc, &[])?;
    assert_eq!(rt;
        none.as_slice(),
        b"value 15.2.4294967295 65535 18446744073709551615 -\n".as_slice()
    );
    Ok(())
}

#[test]
fn replies_are_their_lines(rt: HostRuntime) -> Result<(), Fail> {
    let alloc = rt.alloc();
    let (tx, page, version) = (TX, 7, 12);
    let table = [
        (Reply::Begun { tx }, "begun 15.2.4294967295\n"),
        (Reply::Committed { tx }, "committed 15.2.4294967295\n"),
        (Reply::Aborted { tx }, "aborted 15.2.4294967295\n"),
        (
            Reply::Done { tx, page, version },
            "done 15.2.4294967295 7 12\n",
        ),
        (Reply::Waits { tx, page }, "waits 15.2.4294967295 7\n"),
        (Reply::Taken, "taken\n"),
        (Reply::Held, "held\n"),
        (Reply::Dropped, "dropped\n"),
        (Reply::Evicted, "evicted\n"),
        (Reply::Flushed, "flushed\n"),
        (Reply::Crashed, "crashed\n"),
        (Reply::Armed, "armed\n"),
        (Reply::Cut { count: 36 }, "cut 36\n"),
        (Reply::Viewed { epoch: 2 }, "view 2\n"),
        (Reply::Installed { epoch: 2 }, "installed 2\n"),
        (Reply::Reopened { epoch: 3 }, "reopened 3\n"),
        (Reply::Serving { partition: 0 }, "serving 0\n"),
    ];
    for (reply, line) in table {
        let text = print_reply(alloc, &reply)?;
        assert_eq!(rt; text.as_slice(), line.as_bytes());
    }
    Ok(())
}

#[test]
fn refusals_are_numbers_and_names(rt: HostRuntime) -> Result<(), Fail> {
    let alloc = rt.alloc();
    let table = [
        (Reason::NoNode, "refused 1 NoNode\n"),
        (Reason::Down, "refused 2 Down\n"),
        (Reason::NotInView, "refused 3 NotInView\n"),
        (Reason::NoTx, "refused 4 NoTx\n"),
        (Reason::TxWaits, "refused 5 TxWaits\n"),
        (Reason::NoPage, "refused 6 NoPage\n"),
        (Reason::BadRange, "refused 7 BadRange\n"),
        (Reason::VersionEnd, "refused 8 VersionEnd\n"),
        (Reason::NoFrame, "refused 9 NoFrame\n"),
        (Reason::EmptyLink, "refused 10 EmptyLink\n"),
        (Reason::NoCopy, "refused 11 NoCopy\n"),
        (Reason::Pinned, "refused 12 Pinned\n"),
        (Reason::NotOwner, "refused 13 NotOwner\n"),
        (Reason::BadView { rule: 6 }, "refused 14 BadView 6\n"),
        (Reason::NoView, "refused 15 NoView\n"),
        (Reason::StillUp, "refused 16 StillUp\n"),
        (Reason::SerialEnd, "refused 17 SerialEnd\n"),
        (Reason::TooMany, "refused 18 TooMany\n"),
    ];
    for (reason, line) in table {
        let text = print_reply(alloc, &Reply::Refused { reason })?;
        assert_eq!(rt; text.as_slice(), line.as_bytes());
    }
    Ok(())
}

/// A message from node 1 to node 0.
fn sent(note: Note) -> Sent {
    Sent {
        from: 1,
        to: 0,
        epoch: 2,
        note,
    }
}

/// The text of an entry with two replies and these messages.
fn text_of(alloc: Global, sends: Vec<Sent>, halted: Option<Halt>) -> Result<Vec<u8>, Fail> {
    let entry = Entry {
        event: Event::Deliver { from: 0, to: 1 },
        replies: Items::of(vec![in alloc; Reply::Taken, Reply::Serving { partition: 1 }]?),
        sent: Items::of(sends),
        halted,
    };
    Ok(print_entry(alloc, &entry)?)
}

fn request(mode: Mode, have: Option<u64>) -> Sent {
    sent(Note::Request {
        tx: OTHER,
        page: 1,
        mode,
        have,
    })
}

fn grant(mode: Mode, right: bool, copy: CopyKind) -> Sent {
    sent(Note::Grant {
        tx: OTHER,
        page: 1,
        mode,
        right,
        version: 3,
        copy,
    })
}

fn release(change: Option<u64>) -> Sent {
    sent(Note::Release {
        tx: OTHER,
        page: 1,
        change,
    })
}

#[test]
fn sends_are_their_lines(rt: HostRuntime) -> Result<(), Fail> {
    let alloc = rt.alloc();
    let sends = vec![in alloc;
        request(Mode::Shared, None),
        request(Mode::Exclusive, Some(1)),
        grant(Mode::Shared, true, CopyKind::OnDisk),
        grant(Mode::Exclusive, false, CopyKind::Current),
        grant(Mode::Shared, false, CopyKind::Image),
        release(None),
        release(Some(4)),
        sent(Note::Revoke { page: 1 }),
    ]?;
    let text = text_of(alloc, sends, None)?;
    let lines = b"> deliver 0 1\n\
        taken\n\
        serving 1\n\
        send 1 0 2 request 0.1.1 1 S -\n\
        send 1 0 2 request 0.1.1 1 X 1\n\
        send 1 0 2 grant 0.1.1 1 S right 3 disk\n\
        send 1 0 2 grant 0.1.1 1 X lock 3 current\n\
        send 1 0 2 grant 0.1.1 1 S lock 3 image\n\
        send 1 0 2 release 0.1.1 1 -\n\
        send 1 0 2 release 0.1.1 1 4 image\n\
        send 1 0 2 revoke 1\n";
    assert_eq!(rt; text.as_slice(), lines.as_slice());
    Ok(())
}

/// The text of an entry that answers a revocation.
fn text_of_return(alloc: Global, readers: &[TxId]) -> Result<Vec<u8>, Fail> {
    let note = Note::Return {
        page: 1,
        readers: Items::of(Vec::from_slice(alloc, readers)?),
    };
    text_of(alloc, vec![in alloc; sent(note)]?, None)
}

#[test]
fn readers_have_commas_between_them(rt: HostRuntime) -> Result<(), Fail> {
    let alloc = rt.alloc();
    let none = text_of_return(alloc, &[])?;
    assert_eq!(rt;
        none.as_slice(),
        b"> deliver 0 1\ntaken\nserving 1\nsend 1 0 2 return 1 -\n".as_slice()
    );
    let two = text_of_return(alloc, &[OTHER, TX])?;
    assert_eq!(rt;
        two.as_slice(),
        b"> deliver 0 1\ntaken\nserving 1\nsend 1 0 2 return 1 0.1.1,15.2.4294967295\n".as_slice()
    );
    Ok(())
}

/// The text of an entry that sends a report.
fn text_of_report(
    alloc: Global,
    waits: &[ReportWait],
    locks: &[ReportLock],
    rights: &[ReportRight],
) -> Result<Vec<u8>, Fail> {
    let note = Note::Report {
        partition: 1,
        waits: Items::of(Vec::from_slice(alloc, waits)?),
        locks: Items::of(Vec::from_slice(alloc, locks)?),
        rights: Items::of(Vec::from_slice(alloc, rights)?),
    };
    text_of(alloc, vec![in alloc; sent(note)]?, None)
}

fn wait(tx: TxId, page: u32, mode: Mode, have: Option<u64>) -> ReportWait {
    ReportWait {
        tx,
        page,
        mode,
        have,
    }
}

#[test]
fn reports_have_three_lists(rt: HostRuntime) -> Result<(), Fail> {
    let alloc = rt.alloc();
    let none = text_of_report(alloc, &[], &[], &[])?;
    assert_eq!(rt;
        none.as_slice(),
        b"> deliver 0 1\ntaken\nserving 1\nsend 1 0 2 report 1 waits - locks - rights -\n".as_slice()
    );
    let (tx, page, mode) = (OTHER, 3, Mode::Exclusive);
    let waits = [
        wait(tx, page, Mode::Shared, None),
        wait(TX, 5, mode, Some(9)),
    ];
    let lock = ReportLock { tx, page, mode };
    let right = ReportRight { page, version: 0 };
    let full = text_of_report(alloc, &waits, &[lock, lock], &[right])?;
    let lines = b"> deliver 0 1\ntaken\nserving 1\nsend 1 0 2 report 1 \
        waits 0.1.1:3:S:-,15.2.4294967295:5:X:9 locks 0.1.1:3:X,0.1.1:3:X rights 3:0\n";
    assert_eq!(rt; full.as_slice(), lines.as_slice());
    Ok(())
}

/// The text of an entry that sends a revocation and ends with a halt.
fn text_of_halt(alloc: Global, call: Call, kept: Option<TxId>) -> Result<Vec<u8>, Fail> {
    let sends = vec![in alloc; sent(Note::Revoke { page: 0 })]?;
    text_of(alloc, sends, Some(Halt { call, kept }))
}

#[test]
fn a_halt_stands_before_the_sends(rt: HostRuntime) -> Result<(), Fail> {
    let alloc = rt.alloc();
    let table = [
        (Call::Read, None, "read"),
        (Call::Log, None, "log"),
        (Call::Write, None, "write"),
        (Call::Force, Some(TX), "force kept 15.2.4294967295"),
        (Call::Trim, None, "trim"),
        (Call::Cut, Some(OTHER), "cut kept 0.1.1"),
    ];
    for (call, kept, line) in table {
        let text = text_of_halt(alloc, call, kept)?;
        let lines = format!(in alloc;
            "> deliver 0 1\ntaken\nserving 1\nhalted {line}\nsend 1 0 2 revoke 0\n"
        )?;
        assert_eq!(rt; text.as_slice(), lines.as_bytes());
    }
    Ok(())
}

#[test]
fn the_first_and_the_last_line(rt: HostRuntime) -> Result<(), Fail> {
    let config = Config::new(16, 65_536, 4_096, 2)?;
    let first = print_header(rt.alloc(), &config)?;
    assert_eq!(rt; first.as_slice(), b"> pcl 1 16 65536 4096 2\n".as_slice());
    let last = print_end(rt.alloc(), 199_999, 0)?;
    assert_eq!(rt; last.as_slice(), b"end 199999 0\n".as_slice());
    Ok(())
}
