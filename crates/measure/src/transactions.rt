//! Calls of open transactions, while so many are open.

use pcl_base::{Held, Kind, Mode, NoMemory, PageNo, Pending, TxId};
use std::alloc::Global;
use tx_table::TxTable;

/// The page that each transaction holds.
const PAGE: PageNo = 7;

/// A table with so many open transactions, at most 1,024, each of which holds one page.
fn opened(alloc: Global, size: u32) -> Result<TxTable, NoMemory> {
    let mut txs = TxTable::open(alloc, 0, 1, 1);
    for _tx in 0..size {
        let Ok(tx) = txs.begin() else {
            return Err(NoMemory);
        };
        add(&mut txs, tx, PAGE)?;
    }
    Ok(txs)
}

/// The transaction of a round, each of `size` open ones in turn.
fn tx_of(round: u32, size: u32) -> TxId {
    let serial = match round.checked_rem(size) {
        None => 1,
        Some(place) => place.saturating_add(1),
    };
    TxId {
        node: 0,
        born: 1,
        serial,
    }
}

/// Gives an open transaction a lock.
fn add(txs: &mut TxTable, tx: TxId, page: PageNo) -> Result<(), NoMemory> {
    if !txs.is_open(tx) {
        return Ok(());
    }
    let mode = Mode::Shared;
    let kind = Kind::Own;
    txs.add(tx, Held { page, mode, kind })
}

/// Lets an open transaction that doesn't wait wait for the page that it holds.
fn wait(txs: &mut TxTable, tx: TxId) -> Result<(), NoMemory> {
    if !txs.is_open(tx) {
        return Ok(());
    }
    if txs.pending(tx).is_some() {
        return Ok(());
    }
    let page = PAGE;
    let mode = Mode::Exclusive;
    let write = None;
    txs.wait(tx, Pending { page, mode, write })
}

/// Gives the lock of an open transaction another kind.
fn set_kind(txs: &mut TxTable, tx: TxId, kind: Kind) {
    if !txs.is_open(tx) {
        return;
    }
    if txs.held(tx, PAGE).is_none() {
        return;
    }
    txs.set_kind(tx, PAGE, kind);
}

/// Opens so many transactions, `rounds` times.
pub(crate) fn begins(alloc: Global, size: u32, rounds: u32) -> Result<usize, NoMemory> {
    let mut count: usize = 0;
    for _round in 0..rounds {
        let mut txs = TxTable::open(alloc, 0, 1, 1);
        for _tx in 0..size {
            let _begun = txs.begin();
        }
        count = count.saturating_add(txs.count());
    }
    Ok(count)
}

/// Gives a transaction a lock.
pub(crate) fn adds(alloc: Global, size: u32, rounds: u32) -> Result<usize, NoMemory> {
    let mut txs = opened(alloc, size)?;
    for round in 0..rounds {
        add(&mut txs, tx_of(round, size), PAGE)?;
    }
    Ok(txs.lock_count())
}

/// Lets a transaction wait and be granted.
pub(crate) fn waits(alloc: Global, size: u32, rounds: u32) -> Result<usize, NoMemory> {
    let mut txs = opened(alloc, size)?;
    for round in 0..rounds {
        let tx = tx_of(round, size);
        wait(&mut txs, tx)?;
        add(&mut txs, tx, PAGE)?;
    }
    Ok(txs.lock_count())
}

/// Gives a lock another kind.
pub(crate) fn kinds(alloc: Global, size: u32, rounds: u32) -> Result<usize, NoMemory> {
    let mut txs = opened(alloc, size)?;
    for round in 0..rounds {
        set_kind(&mut txs, tx_of(round, size), Kind::Registered);
    }
    Ok(txs.lock_count())
}

/// What the calls that change nothing answer of a transaction, counted.
fn read(txs: &TxTable, tx: TxId) -> usize {
    if !txs.is_open(tx) || txs.pending(tx).is_some() || txs.held(tx, PAGE).is_none() {
        return 0;
    }
    let numbers = txs.count().min(txs.lock_count()).min(txs.wait_count());
    txs.locks(tx).len().max(numbers)
}

/// Makes the calls that change nothing.
pub(crate) fn reads(alloc: Global, size: u32, rounds: u32) -> Result<usize, NoMemory> {
    let txs = opened(alloc, size)?;
    let mut count: usize = 0;
    for round in 0..rounds {
        count = count.saturating_add(read(&txs, tx_of(round, size)));
    }
    Ok(count)
}

/// Ends the oldest transaction and opens another.
pub(crate) fn ends(alloc: Global, size: u32, rounds: u32) -> Result<usize, NoMemory> {
    let mut txs = opened(alloc, size)?;
    let mut count: usize = 0;
    for round in 0..rounds {
        let oldest = TxId {
            node: 0,
            born: 1,
            serial: round.saturating_add(1),
        };
        if txs.end(oldest).is_some() {
            count = count.saturating_add(1);
        }
        let _begun = txs.begin();
    }
    Ok(count)
}
