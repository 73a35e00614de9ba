mod storages;

use super::*;
use pcl_base::{Config, PageNo};
use std::test::Fail;
use storages::{Long, Small};

/// Page 0 at version 1, whole, and its changes to version 4, each record of 37 bytes.
const LOG_0: &[u8] =
    b"\x00\x00\x00%\x00\x00\x00\x00\x01\x00\x00\x00\x01\x00\x00\x00\x01\x00\x00\x00\x00\x00\x00\x00\x00\x00\x00\x00\x01AAAAAAAA\x00\x00\x00%\x80\x00\x00\x00\x01\x00\x00\x00\x02\x00\x00\x00\x01\x00\x00\x00\x00\x00\x00\x00\x00\x00\x00\x00\x04\x00\x01\x00\x06\x00\x02dd";

/// The changes of page 0 to version 2.
const LOG_1: &[u8] =
    b"\x00\x00\x00%\x81\x00\x00\x00\x01\x00\x00\x00\x01\x00\x00\x00\x01\x00\x00\x00\x00\x00\x00\x00\x00\x00\x00\x00\x02\x00\x01\x00\x00\x00\x02bb";

/// The changes of page 0 to version 3.
const LOG_2: &[u8] =
    b"\x00\x00\x00%\x82\x00\x00\x00\x01\x00\x00\x00\x01\x00\x00\x00\x01\x00\x00\x00\x00\x00\x00\x00\x00\x00\x00\x00\x03\x00\x01\x00\x02\x00\x02cc";

/// Page 0 at version 1 twice, whole, and twice its changes to version 2.
const TWICE: &[u8] =
    b"\x00\x00\x00%\x00\x00\x00\x00\x01\x00\x00\x00\x01\x00\x00\x00\x01\x00\x00\x00\x00\x00\x00\x00\x00\x00\x00\x00\x01AAAAAAAA\x00\x00\x00%\x00\x00\x00\x00\x01\x00\x00\x00\x02\x00\x00\x00\x01\x00\x00\x00\x00\x00\x00\x00\x00\x00\x00\x00\x01BBBBBBBB\x00\x00\x00%\x80\x00\x00\x00\x01\x00\x00\x00\x03\x00\x00\x00\x01\x00\x00\x00\x00\x00\x00\x00\x00\x00\x00\x00\x02\x00\x01\x00\x00\x00\x02bb\x00\x00\x00%\x80\x00\x00\x00\x01\x00\x00\x00\x04\x00\x00\x00\x01\x00\x00\x00\x00\x00\x00\x00\x00\x00\x00\x00\x02\x00\x01\x00\x00\x00\x02zz";

/// Page 0 at version 4, as these logs make it.
const REDONE: &[u8; 24] =
    b"\x00\x00\x00\x00\x00\x00\x00\x01\x00\x00\x00\x00\x00\x00\x00\x04bbccAAdd";

/// Page 0 at version 1, as the first record of `TWICE` makes it.
const FIRST: &[u8; 24] =
    b"\x00\x00\x00\x00\x00\x00\x00\x01\x00\x00\x00\x00\x00\x00\x00\x01AAAAAAAA";

/// Page 0 at version 2, as the third record of `TWICE` makes it.
const SECOND: &[u8; 24] =
    b"\x00\x00\x00\x00\x00\x00\x00\x01\x00\x00\x00\x00\x00\x00\x00\x02bbAAAAAA";

/// What redo answers for page 0, which is listed twice.
fn redone(rt: HostRuntime, storage: &mut Small) -> Result<Vec<(PageNo, u64)>, Fail> {
    let config = Config::new(3, 2, 8, 2)?;
    let pages = Vec::from_slice(rt.alloc(), &[0, 0])?;
    let versions = redo(rt.alloc(), storage, &config, 0, &pages)
        .ok()
        .ok_or("no redo")?;
    Ok(versions)
}

#[test]
fn versions_are_found_in_the_listed_logs(rt: HostRuntime) -> Result<(), Fail> {
    let config = Config::new(3, 2, 8, 2)?;
    let mut storage = Small::open([LOG_0, LOG_1, LOG_2]);
    let pages = Vec::from_slice(rt.alloc(), &[0, 1])?;
    let logs = Vec::from_slice(rt.alloc(), &[2, 1])?;
    let newest = newest(rt.alloc(), &mut storage, &config, 0, &pages, &logs)
        .ok()
        .ok_or("no versions")?;
    assert_eq!(rt; newest.as_slice(), [3, 0].as_slice());
    Ok(())
}

#[test]
fn a_log_larger_than_memory(rt: HostRuntime) -> Result<(), Fail> {
    let config = Config::new(1, 1, 4096, 2)?;
    let pages = Vec::from_slice(rt.alloc(), &[0])?;
    let logs = Vec::from_slice(rt.alloc(), &[0])?;
    let newest = newest(rt.alloc(), &mut Long, &config, 0, &pages, &logs)
        .ok()
        .ok_or("no versions")?;
    assert_eq!(rt; newest.as_slice(), [1].as_slice());
    Ok(())
}

#[test]
fn a_plan_writes_nothing_until_it_is_applied(rt: HostRuntime) -> Result<(), Fail> {
    let config = Config::new(3, 2, 8, 2)?;
    let mut storage = Small::open([LOG_0, LOG_1, LOG_2]);
    let pages = Vec::from_slice(rt.alloc(), &[1, 0])?;
    let Ok(mut plan) = prepare(rt.alloc(), &mut storage, &config, 0, &pages) else {
        return Err(Fail::from("no plan"));
    };
    assert_eq!(rt; plan.versions(), [(1, 0), (0, 4)].as_slice());
    assert_eq!(rt; plan.writes(), [0].as_slice());
    assert_eq!(rt; storage.writes, 0);
    assert_eq!(rt; plan.apply(&mut storage), Ok(()));
    assert_eq!(rt; storage.writes, 1);
    assert_eq!(rt; storage.first(), *REDONE);
    Ok(())
}

#[test]
fn a_chain_crosses_three_logs(rt: HostRuntime) -> Result<(), Fail> {
    let mut storage = Small::open([LOG_0, LOG_1, LOG_2]);
    let versions = redone(rt, &mut storage)?;
    assert_eq!(rt; versions.as_slice(), [(0, 4), (0, 4)].as_slice());
    assert_eq!(rt; storage.first(), *REDONE);
    assert_eq!(rt; storage.writes, 1);
    let again = redone(rt, &mut storage)?;
    assert_eq!(rt; again.as_slice(), [(0, 4), (0, 4)].as_slice());
    assert_eq!(rt; storage.writes, 1);
    Ok(())
}

/// Page 0 at versions 1 and 3, whole, and its changes to versions 2 and 4, in turn.
const BOTH: &[u8] =
    b"\x00\x00\x00%\x00\x00\x00\x00\x01\x00\x00\x00\x01\x00\x00\x00\x01\x00\x00\x00\x00\x00\x00\x00\x00\x00\x00\x00\x01AAAAAAAA\x00\x00\x00%\x80\x00\x00\x00\x01\x00\x00\x00\x02\x00\x00\x00\x01\x00\x00\x00\x00\x00\x00\x00\x00\x00\x00\x00\x02\x00\x01\x00\x00\x00\x02bb\x00\x00\x00%\x00\x00\x00\x00\x01\x00\x00\x00\x03\x00\x00\x00\x01\x00\x00\x00\x00\x00\x00\x00\x00\x00\x00\x00\x03CCCCCCCC\x00\x00\x00%\x80\x00\x00\x00\x01\x00\x00\x00\x04\x00\x00\x00\x01\x00\x00\x00\x00\x00\x00\x00\x00\x00\x00\x00\x04\x00\x01\x00\x06\x00\x02dd";

/// Page 0 at version 4, as `BOTH` makes it.
const FOURTH: &[u8; 24] =
    b"\x00\x00\x00\x00\x00\x00\x00\x01\x00\x00\x00\x00\x00\x00\x00\x04CCCCCCdd";

/// The version of page 0 by the first bytes of `TWICE`, and the stored page that redo makes.
fn made_by(length: usize) -> (u64, [u8; 24]) {
    if length < 37 {
        return (0, [0; 24]);
    }
    if length < 111 {
        return (1, *FIRST);
    }
    (2, *SECOND)
}

#[test]
fn a_record_torn_at_every_length(rt: HostRuntime) -> Result<(), Fail> {
    for length in 0..149 {
        let log = TWICE.get(..length).ok_or("no such length")?;
        let mut storage = Small::open([log, b"", b""]);
        let (version, page) = made_by(length);
        let versions = redone(rt, &mut storage)?;
        assert_eq!(rt;
            versions.as_slice(),
            [(0, version), (0, version)].as_slice()
        );
        assert_eq!(rt; storage.first(), page);
    }
    Ok(())
}

#[test]
fn a_torn_record_ends_a_chain(rt: HostRuntime) -> Result<(), Fail> {
    for length in 37..74 {
        let log = LOG_0.get(..length).ok_or("no such length")?;
        let mut storage = Small::open([log, LOG_1, LOG_2]);
        let versions = redone(rt, &mut storage)?;
        assert_eq!(rt; versions.as_slice(), [(0, 3), (0, 3)].as_slice());
    }
    Ok(())
}

#[test]
fn both_formats_in_one_log(rt: HostRuntime) -> Result<(), Fail> {
    let config = Config::new(3, 2, 8, 2)?;
    let pages = Vec::from_slice(rt.alloc(), &[0])?;
    let logs = Vec::from_slice(rt.alloc(), &[0])?;
    let mut storage = Small::open([BOTH, b"", b""]);
    let newest = newest(rt.alloc(), &mut storage, &config, 0, &pages, &logs)
        .ok()
        .ok_or("no versions")?;
    assert_eq!(rt; newest.as_slice(), [4].as_slice());
    let Ok(mut plan) = prepare(rt.alloc(), &mut storage, &config, 0, &pages) else {
        return Err(Fail::from("no plan"));
    };
    assert_eq!(rt; plan.versions(), [(0, 4)].as_slice());
    assert_eq!(rt; plan.apply(&mut storage), Ok(()));
    assert_eq!(rt; storage.first(), *FOURTH);
    let mut other = Small::open([BOTH, b"", b""]);
    let versions = redone(rt, &mut other)?;
    assert_eq!(rt; versions.as_slice(), [(0, 4), (0, 4)].as_slice());
    assert_eq!(rt; other.first(), *FOURTH);
    Ok(())
}

#[test]
fn the_first_of_two_records_of_a_version_counts(rt: HostRuntime) -> Result<(), Fail> {
    let mut storage = Small::open([TWICE, b"", b""]);
    let versions = redone(rt, &mut storage)?;
    assert_eq!(rt; versions.as_slice(), [(0, 2), (0, 2)].as_slice());
    let stored = storage.first();
    assert_eq!(rt; &stored[16..], b"bbAAAAAA".as_slice());
    Ok(())
}
