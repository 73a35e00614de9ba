use crate::{BeginFault, Held, Kind, Pending, TxTable};
use pcl_base::{Mode, NoMemory, PageNo, TxId};
use std::test::Fail;

/// Gives an open transaction a lock.
fn lock(txs: &mut TxTable, tx: TxId, page: PageNo, kind: Kind) -> Result<(), NoMemory> {
    if !txs.is_open(tx) {
        return Ok(());
    }
    let mode = Mode::Shared;
    txs.add(tx, Held { page, mode, kind })
}

/// Lets an open transaction that doesn't wait wait.
fn wait(txs: &mut TxTable, tx: TxId, page: PageNo) -> Result<(), NoMemory> {
    if !txs.is_open(tx) {
        return Ok(());
    }
    if txs.pending(tx).is_some() {
        return Ok(());
    }
    let mode = Mode::Shared;
    let write = None;
    txs.wait(tx, Pending { page, mode, write })
}

/// The numbers of open transactions, of their locks and of their waiting accesses.
fn counts(txs: &TxTable) -> (usize, usize, usize) {
    (txs.count(), txs.lock_count(), txs.wait_count())
}

#[test]
fn serials_and_room_end(rt: HostRuntime) -> Result<(), Fail> {
    let mut last = TxTable::open(rt.alloc(), 0, 1, u32::MAX);
    assert_eq!(rt; last.begin()?.serial, u32::MAX);
    assert_eq!(rt; last.begin(), Err(BeginFault::SerialEnd));
    let mut full = TxTable::open(rt.alloc(), 0, 1, 1);
    for _ in 0..1024 {
        let _tx = full.begin()?;
    }
    assert_eq!(rt; full.begin(), Err(BeginFault::TooMany));
    assert_eq!(rt; full.ids()?.len(), 1024);
    Ok(())
}

#[test]
fn a_slot_is_used_again(rt: HostRuntime) -> Result<(), Fail> {
    let mut txs = TxTable::open(rt.alloc(), 3, 2, 7);
    let reader = txs.begin()?;
    let writer = txs.begin()?;
    lock(&mut txs, reader, 5, Kind::Right)?;
    lock(&mut txs, reader, 6, Kind::Own)?;
    wait(&mut txs, writer, 5)?;
    assert_eq!(rt; counts(&txs), (2, 2, 1));
    let _ended = txs.end(reader);
    let later = txs.begin()?;
    lock(&mut txs, writer, 5, Kind::Own)?;
    assert_eq!(rt; counts(&txs), (2, 1, 0));
    assert_eq!(rt; txs.ids()?.as_slice(), [writer, later].as_slice());
    Ok(())
}
