use super::*;
use lock_entry::Entry;
use lock_table::Table;
use pcl_base::{Body, Config, Message, Mode, NoMemory, PageNo, Reply, TxId, Waiter};
use std::alloc::Global;
use std::rt::HostRuntime;
use std::test::Fail;

const ASKER: TxId = TxId {
    node: 0,
    born: 1,
    serial: 1,
};

/// An entry of version 7, for which one transaction waits.
fn entry_with_one(alloc: Global) -> Result<Entry, NoMemory> {
    let mut entry = Entry::new(alloc, 7);
    entry.ask(Waiter {
        tx: ASKER,
        mode: Mode::Shared,
        have: None,
    })?;
    Ok(entry)
}

/// A message on a page.
fn revoke_of(page: PageNo) -> Message {
    Message {
        epoch: 1,
        body: Body::Revoke { page },
    }
}

// Replies and sends come in the order in which they were given, and can be forgotten.
#[test]
fn outputs_are_kept_in_order(rt: HostRuntime) -> Result<(), Fail> {
    let mut out = Outputs::open(rt.alloc());
    out.reserve(1, 2)?;
    out.reply(Reply::Taken);
    out.send(1, revoke_of(4));
    out.send(0, revoke_of(5));
    assert_eq!(rt; out.replies(), [Reply::Taken].as_slice());
    assert_eq!(rt; out.sends().len(), 2);
    out.clear();
    assert_eq!(rt; out.replies().len() + out.sends().len(), 0);
    out.reserve(1, 1)?;
    out.reply(Reply::Dropped);
    out.send(2, revoke_of(6));
    let (replies, sends) = out.into_parts();
    assert_eq!(rt; replies.as_slice(), [Reply::Dropped].as_slice());
    assert_eq!(rt;
        sends.as_slice(),
        [Outgoing {
            to: 2,
            message: revoke_of(6)
        }]
        .as_slice()
    );
    Ok(())
}

// What waits is counted while its entry or its table is there.
#[test]
fn what_waits_is_counted(rt: HostRuntime) -> Result<(), Fail> {
    let config = Config::new(2, 10, 64, 8)?;
    assert_eq!(rt; config.nodes(), 2);
    assert_eq!(rt; config.pages(), 10);
    let mut tables = Tables::open(rt.alloc(), &config)?;
    tables.put_table(1, Some(Table::open(rt.alloc(), &config, 1, true)?));
    assert_eq!(rt; tables.listed(), 0);
    tables.make(5)?;
    tables.put(5, entry_with_one(rt.alloc())?);
    assert_eq!(rt; tables.listed(), 1);
    tables.put_table(1, None);
    assert_eq!(rt; tables.listed(), 0);
    Ok(())
}
