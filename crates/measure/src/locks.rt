//! Many transactions wait at one page.

use lock_entry::Entry;
use pcl_base::{Mode, NoMemory, NodeNo, TxId, Waiter};
use std::alloc::Global;

/// The owner of the page, to which the writers belong.
const OWNER: NodeNo = 0;

/// The nodes to which the readers belong.
const NODES: u32 = 16;

fn waiter(node: NodeNo, serial: u32, mode: Mode) -> Waiter {
    let tx = TxId {
        node,
        born: 1,
        serial,
    };
    let have = None;
    Waiter { tx, mode, have }
}

/// Repeats [`one_after_another`] and answers the number of all grants.
pub(crate) fn repeat_one_after_another(
    alloc: Global,
    size: u32,
    rounds: u32,
) -> Result<usize, NoMemory> {
    let mut count: usize = 0;
    for _round in 0..rounds {
        count = count.saturating_add(one_after_another(alloc, size)?);
    }
    Ok(count)
}

/// Repeats [`one_settle`] and answers the number of all grants.
pub(crate) fn repeat_one_settle(alloc: Global, size: u32, rounds: u32) -> Result<usize, NoMemory> {
    let mut count: usize = 0;
    for _round in 0..rounds {
        count = count.saturating_add(one_settle(alloc, size)?);
    }
    Ok(count)
}

/// So many transactions ask to write one page, and each is granted when the one before it has
/// ended. The page is settled after each event.
fn one_after_another(alloc: Global, size: u32) -> Result<usize, NoMemory> {
    let mut entry = Entry::new(alloc, 0);
    let mut count: usize = 0;
    for serial in 0..size {
        entry.ask(waiter(OWNER, serial, Mode::Exclusive))?;
        count = count.saturating_add(entry.settle(OWNER)?.len());
    }
    for serial in 0..size {
        let _taken = entry.end(waiter(OWNER, serial, Mode::Exclusive).tx, None);
        count = count.saturating_add(entry.settle(OWNER)?.len());
    }
    Ok(count)
}

/// So many transactions of all nodes ask to read a page that one writes, and are granted in one
/// settling when that one has ended.
fn one_settle(alloc: Global, size: u32) -> Result<usize, NoMemory> {
    let mut entry = Entry::new(alloc, 0);
    let writer = waiter(OWNER, u32::MAX, Mode::Exclusive);
    entry.ask(writer)?;
    let _first = entry.settle(OWNER)?;
    for serial in 0..size {
        entry.ask(waiter((serial % NODES) as NodeNo, serial, Mode::Shared))?;
    }
    let _taken = entry.end(writer.tx, None);
    Ok(entry.settle(OWNER)?.len())
}
