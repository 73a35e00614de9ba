use crate::counter::Counter;
use crate::grant_tests::write_of;
use crate::{Home, HomeFault};
use pcl_base::{Change, Config, Items, NoMemory, NodeNo, PageNo, Reason, TxId};
use std::alloc::Global;
use std::rt::HostRuntime;
use std::test::Fail;

/// A partition comes and goes.
fn move_both(home: &mut Home, partition: NodeNo) -> Result<(), NoMemory> {
    let list = home.move_list()?;
    home.take_over(&list, partition);
    home.give_up(&list, partition);
    Ok(())
}

/// A home of two nodes takes a change of page 4 and a partition, and gives a partition up: how many
/// pages a flush of page 4 writes then, and an eviction after that.
fn writes_after(alloc: Global, partition: NodeNo) -> Option<(u32, u32)> {
    let config = Config::new(2, 9, 8, 2).ok()?;
    let image = Items::of(vec![in alloc; 7u8; 8].ok()?);
    let change = Change { version: 1, image };
    match Home::open(alloc, &config, 1, 1) {
        Err(_) => None,
        Ok(mut home) => {
            let mut disk = Counter::new(5, 1);
            let taken = home.take_change(4, &change, &mut disk).is_ok();
            let moved = move_both(&mut home, partition).is_ok();
            let flushed = home.flush(4, &mut disk).is_ok();
            let first = disk.writes;
            let evicted = home.evict(4, &mut disk).is_ok();
            home.close();
            if taken && moved && flushed && evicted {
                return Some((first, disk.writes));
            }
            None
        }
    }
}

// A taken change is dirty: it is written once. The copies of a partition that is given up are clean.
#[test]
fn a_change_and_a_partition(rt: HostRuntime) {
    assert_eq!(rt; writes_after(rt.alloc(), 0), Some((0, 0)));
    assert_eq!(rt; writes_after(rt.alloc(), 1), Some((1, 1)));
}

/// A change of a page is taken, where that is one of the database.
fn change(
    alloc: Global,
    home: &mut Home,
    page: PageNo,
    disk: &mut Counter,
) -> Result<(), HomeFault> {
    let image = Items::of(vec![in alloc; 7u8; 8]?);
    if home.config().pages() <= page || image.len() != home.config().size() as usize {
        return Err(HomeFault::Refused(Reason::NoPage));
    }
    let change = Change { version: 1, image };
    home.take_change(page, &change, disk)
}

/// How many pages are written where a write takes the frames of two dirty copies.
fn victims(alloc: Global, home: &mut Home, tx: TxId, disk: &mut Counter) -> Result<u32, HomeFault> {
    change(alloc, home, 2, disk)?;
    change(alloc, home, 4, disk)?;
    let before = disk.writes;
    let _asked = home.access(&write_of(alloc, tx, 6)?, true, disk)?;
    Ok(disk.writes.saturating_sub(before))
}

// A write that waits takes a slot and a private copy, and each of them the frame of a dirty copy.
#[test]
fn two_dirty_victims(rt: HostRuntime) -> Result<(), Fail> {
    let config = Config::new(2, 9, 8, 2)?;
    assert_eq!(rt; config.nodes(), 2);
    let mut home = Home::open(rt.alloc(), &config, 0, 1)?;
    let mut disk = Counter::new(0, 0);
    let tx = home.begin().unwrap_or(TxId::default());
    let written = victims(rt.alloc(), &mut home, tx, &mut disk);
    home.close();
    assert_eq!(rt; written, Ok(2));
    Ok(())
}
