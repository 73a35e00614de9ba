use crate::counter::Counter;
use crate::grant_tests::{arrive, image_to_write, write_of};
use crate::{Ending, Home, HomeFault};
use pcl_base::{Config, Kind, PageNo, Reason, TxId, Version};
use std::alloc::Global;
use std::rt::HostRuntime;
use std::test::Fail;

/// Gives a transaction up: at how many pages its end is told.
fn given_up(home: &mut Home, tx: TxId) -> Result<usize, HomeFault> {
    Ok(home.abort(tx)?.len())
}

#[test]
fn a_transaction_is_given_up_once(rt: HostRuntime) -> Result<(), Fail> {
    let config = Config::new(2, 4, 8, 2)?;
    let mut home = Home::open(rt.alloc(), &config, 1, 1)?;
    let tx = home.begin().unwrap_or(TxId::default());
    let first = given_up(&mut home, tx);
    let again = given_up(&mut home, tx);
    let none = given_up(&mut home, TxId::default());
    home.close();
    assert_eq!(rt; first, Ok(0));
    assert_eq!(rt; again, Err(HomeFault::Refused(Reason::NoTx)));
    assert_eq!(rt; none, Err(HomeFault::Refused(Reason::NoTx)));
    Ok(())
}

/// The page, the kind, the version, and the bytes at places 1 and 2 of what an end tells.
type Told = (PageNo, Kind, Version, Option<u8>, Option<u8>);

fn told(end: &Ending) -> Told {
    match &end.change {
        None => (end.page, end.kind, 0, None, None),
        Some(change) => {
            let bytes = change.image.as_slice();
            let (first, second) = (bytes.get(1).copied(), bytes.get(2).copied());
            (end.page, end.kind, change.version, first, second)
        }
    }
}

/// A write of page 4 is granted with an image of fives at version 3, and is committed: what the first
/// end tells, and at how many pages an end is told.
fn committed(
    alloc: Global,
    home: &mut Home,
    tx: TxId,
    disk: &mut Counter,
) -> Result<(Option<Told>, usize), HomeFault> {
    let _asked = home.access(&write_of(alloc, tx, 4)?, false, disk)?;
    let granted = image_to_write(alloc, tx)?;
    let _done = arrive(home, &granted, disk)?;
    let ends = home.commit(tx, disk)?;
    Ok((ends.first().map(told), ends.len()))
}

// A commit of one byte forces a record of 36 bytes, writes no page, and tells the next version with the
// whole page.
#[test]
fn a_commit_forces_its_record(rt: HostRuntime) -> Result<(), Fail> {
    let config = Config::new(2, 9, 8, 2)?;
    assert_eq!(rt; config.nodes(), 2);
    let mut home = Home::open(rt.alloc(), &config, 1, 1)?;
    let mut disk = Counter::new(5, 3);
    let tx = home.begin().unwrap_or(TxId::default());
    let first = committed(rt.alloc(), &mut home, tx, &mut disk);
    home.close();
    let end = (4, Kind::Registered, 4, Some(5), Some(1));
    assert_eq!(rt; first, Ok((Some(end), 1)));
    assert_eq!(rt; (disk.forced, disk.writes), (36, 0));
    Ok(())
}
