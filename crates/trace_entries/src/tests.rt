use super::*;
use node_parts::Outgoing;
use pcl_base::{Body, Event, Items, Message, Note, Reply, ReturnRight, TxId};
use std::test::Fail;

/// The first transaction of node 1.
fn first() -> TxId {
    TxId {
        node: 1,
        born: 1,
        serial: 1,
    }
}

#[test]
fn a_write_is_copied(rt: HostRuntime) -> Result<(), Fail> {
    let alloc = rt.alloc();
    let event = Event::Write {
        tx: first(),
        page: 1,
        place: 3,
        bytes: Items::of(vec![in alloc; 7u8, 9]?),
    };
    let copy = copy_event(&event)?;
    assert_eq!(rt; copy, event);
    let entry = one_reply(alloc, copy, Reply::Held)?;
    assert_eq!(rt; entry.event, event);
    Ok(())
}

#[test]
fn a_return_is_noted_with_its_readers(rt: HostRuntime) -> Result<(), Fail> {
    let alloc = rt.alloc();
    let readers = Items::of(vec![in alloc; first()]?);
    let body = Body::Return(ReturnRight { page: 2, readers });
    let message = Message { epoch: 4, body };
    let sends = vec![in alloc; Outgoing { to: 0, message }]?;
    let sent = Notes::open(alloc, 1, 1, 1)?.of(1, sends.as_slice());
    let note = Note::Return {
        page: 2,
        readers: Items::of(vec![in alloc; first()]?),
    };
    let expected = pcl_base::Sent {
        from: 1,
        to: 0,
        epoch: 4,
        note,
    };
    assert_eq!(rt; sent, Items::of(vec![in alloc; expected]?));
    Ok(())
}
