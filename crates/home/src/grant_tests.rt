ghost use Rattle.std.specs.Prelude.{◌≡◌, true, length, IfSome};
ghost use Rattle.node_rules.specs.AccessRule.{image_of};

use super::*;
use crate::counter::Counter;
use pcl_base::{Config, CopyPart, Grant, Items, Mode, Page, PageNo, Reason, Reply, TxId, Version};
use std::alloc::Global;
use std::rt::HostRuntime;
use std::test::Fail;

/// The version that a reply tells, and the bytes at places 1 and 2 of a read.
type Told = (Version, Option<u8>, Option<u8>);

fn told(reply: &Reply) -> Told {
    match reply {
        Reply::Value { version, bytes, .. } => {
            let bytes = bytes.as_slice();
            (*version, bytes.get(1).copied(), bytes.get(2).copied())
        }
        Reply::Done { version, .. } => (*version, None, None),
        _ => (0, None, None),
    }
}

fn read_of(tx: TxId, page: PageNo) -> Access {
    Access {
        tx,
        page,
        write: None,
    }
}

/// A one is written at place 2.
pub(crate) fn write_of(alloc: Global, tx: TxId, page: PageNo) -> Result<Access, HomeFault> {
    let bytes: Page = Items::of(vec![in alloc; 1u8; 1]?);
    Ok(Access {
        tx,
        page,
        write: Some((2, bytes)),
    })
}

/// A grant of page 4 at version 3 for a read, with the right and with an image of fives.
fn grant_to_read(alloc: Global, tx: TxId) -> Result<Grant, HomeFault> {
    let image: Page = Items::of(vec![in alloc; 5u8; 8]?);
    Ok(Grant {
        tx,
        page: 4,
        mode: Mode::Shared,
        right: true,
        version: 3,
        copy: CopyPart::Image(image),
    })
}

/// A grant of page 4 at version 3 for a write, with an image of fives.
pub(crate) fn image_to_write(alloc: Global, tx: TxId) -> Result<Grant, HomeFault> {
    let image: Page = Items::of(vec![in alloc; 5u8; 8]?);
    Ok(Grant {
        tx,
        page: 4,
        mode: Mode::Exclusive,
        right: false,
        version: 3,
        copy: CopyPart::Image(image),
    })
}

/// A grant of page 4 at version 3 for a write, which the node has.
fn grant_to_write(tx: TxId) -> Grant {
    Grant {
        tx,
        page: 4,
        mode: Mode::Exclusive,
        right: false,
        version: 3,
        copy: CopyPart::Current,
    }
}

pub(crate) fn is_good_image(home: &Home, copy: &CopyPart) -> bool
    ensures { IfSome (image_of copy.now) (λ b. result ≡ true → length b ≡ home.now.config.size) }
{
    match copy {
        CopyPart::Image(image) => image.len() == home.config().size() as usize,
        CopyPart::Current => true,
        CopyPart::OnDisk => true,
    }
}

/// A grant arrives, where its image has the size of a page.
pub(crate) fn arrive(
    home: &mut Home,
    g: &Grant,
    disk: &mut Counter,
) -> Result<Option<Told>, HomeFault> {
    if !is_good_image(home, &g.copy) {
        return Err(HomeFault::Refused(Reason::BadRange));
    }
    match home.on_grant(g, false, disk)? {
        None => Ok(None),
        Some(reply) => Ok(Some(told(&reply))),
    }
}

/// Page 3 is granted for a read, where that is waited for.
fn grant_own(
    home: &mut Home,
    tx: TxId,
    version: Version,
    disk: &mut Counter,
) -> Result<Told, HomeFault> {
    if !home.parts.waits_as(tx, 3, Mode::Shared) {
        return Err(HomeFault::Refused(Reason::NoTx));
    }
    let reply = home.grant_own(tx, 3, Mode::Shared, version, disk)?;
    Ok(told(&reply))
}

/// What was done at once.
fn done(next: &Next) -> Option<Told> {
    match next {
        Next::Now(reply) => Some(told(reply)),
        Next::AskOwn(_) => None,
        Next::Send(_) => None,
    }
}

fn images(
    alloc: Global,
    home: &mut Home,
    tx: TxId,
    disk: &mut Counter,
) -> Result<[Option<Told>; 4], HomeFault> {
    let _asked = home.access(&read_of(tx, 4), false, disk)?;
    let first = arrive(home, &grant_to_read(alloc, tx)?, disk)?;
    let again = arrive(home, &grant_to_read(alloc, tx)?, disk)?;
    let _asked = home.access(&write_of(alloc, tx, 4)?, false, disk)?;
    let written = arrive(home, &grant_to_write(tx), disk)?;
    let held = done(&home.access(&read_of(tx, 4), false, disk)?);
    Ok([first, again, written, held])
}

// An image is taken once. A write of the page is granted without one, and a read of what is held is
// done at once then.
#[test]
fn grants_with_an_image_and_without(rt: HostRuntime) -> Result<(), Fail> {
    let config = Config::new(2, 9, 8, 2)?;
    assert_eq!(rt; config.nodes(), 2);
    let mut home = Home::open(rt.alloc(), &config, 1, 1)?;
    let mut disk = Counter::new(5, 3);
    let tx = home.begin().unwrap_or(TxId::default());
    let told = images(rt.alloc(), &mut home, tx, &mut disk);
    let rights = home.shelf().count();
    home.close();
    let read = Some((3, Some(5), Some(5)));
    let written = Some((3, None, None));
    let held = Some((3, Some(5), Some(1)));
    assert_eq!(rt; told, Ok([read, None, written, held]));
    assert_eq!(rt; (rights, disk.reads), (1, 0));
    Ok(())
}

// An own page is read where the node has no copy. A page of another number or version is named, and
// the access waits on.
#[test]
fn grants_from_the_disk(rt: HostRuntime) -> Result<(), Fail> {
    let config = Config::new(2, 9, 8, 2)?;
    assert_eq!(rt; config.nodes(), 2);
    let mut home = Home::open(rt.alloc(), &config, 1, 1)?;
    let mut disk = Counter::new(5, 2);
    let tx = home.begin().unwrap_or(TxId::default());
    let asked = home.access(&read_of(tx, 3), true, &mut disk).is_ok();
    let number = grant_own(&mut home, tx, 7, &mut disk);
    disk.number = 4;
    let version = grant_own(&mut home, tx, 7, &mut disk);
    let read = grant_own(&mut home, tx, 2, &mut disk);
    home.close();
    assert!(rt; asked);
    assert_eq!(rt; number, Err(differs(4, 5)));
    assert_eq!(rt; version, Err(differs(7, 2)));
    assert_eq!(rt; read, Ok((2, Some(9), Some(9))));
    assert_eq!(rt; disk.reads, 3);
    Ok(())
}

fn differs(expected: u64, found: u64) -> HomeFault {
    HomeFault::Differs {
        page: 3,
        expected,
        found,
    }
}

fn given_up(home: &mut Home, tx: TxId, disk: &mut Counter) -> Result<usize, HomeFault> {
    let _asked = home.access(&read_of(tx, 4), false, disk)?;
    Ok(home.abort(tx)?.len())
}

// The right of a grant whose transaction was given up while its request was on the way is accepted.
#[test]
fn a_right_for_an_ended_transaction(rt: HostRuntime) -> Result<(), Fail> {
    let config = Config::new(2, 9, 8, 2)?;
    assert_eq!(rt; config.nodes(), 2);
    let mut home = Home::open(rt.alloc(), &config, 1, 1)?;
    let mut disk = Counter::new(5, 3);
    let tx = home.begin().unwrap_or(TxId::default());
    let ended = given_up(&mut home, tx, &mut disk);
    let late = late_grant(rt.alloc(), &mut home, tx, &mut disk);
    let right = home.shelf().may_read(4, 3);
    home.close();
    assert_eq!(rt; ended, Ok(1));
    assert_eq!(rt; late, Ok(None));
    assert!(rt; right);
    Ok(())
}

fn late_grant(
    alloc: Global,
    home: &mut Home,
    tx: TxId,
    disk: &mut Counter,
) -> Result<Option<Told>, HomeFault> {
    arrive(home, &grant_to_read(alloc, tx)?, disk)
}
