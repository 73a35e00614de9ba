ghost use Rattle.std.specs.Prelude.{None};

use super::*;
use disk_model::Storage;
use pcl_base::{Config, Failed, NoMemory, NodeNo, PageNo};
use std::test::Fail;

/// Three records: page 0 at version 1, whole; its first byte, to version 2; and two more bytes of
/// it, to version 3, with two bytes of page 2, to version 1.
const LOG: &[u8] =
    b"\x00\x00\x00\x25\x00\x00\x00\x00\x01\x00\x00\x00\x01\x00\x00\x00\x01\x00\x00\x00\x00\x00\x00\x00\x00\x00\x00\x00\x01\x00\x00\xbe\xef\x00\x00\x00\x00\x00\x00\x00\x24\x80\x00\x00\x00\x01\x00\x00\x00\x02\x00\x00\x00\x01\x00\x00\x00\x00\x00\x00\x00\x00\x00\x00\x00\x02\x00\x01\x00\x00\x00\x01\x07\x00\x00\x00\x3d\x80\x00\x00\x00\x01\x00\x00\x00\x03\x00\x00\x00\x02\x00\x00\x00\x00\x00\x00\x00\x00\x00\x00\x00\x03\x00\x01\x00\x03\x00\x02\xab\xcd\x00\x00\x00\x02\x00\x00\x00\x00\x00\x00\x00\x01\x00\x02\x00\x00\x00\x01\x01\x00\x04\x00\x01\x02";

/// The first of these records, and all but its last byte once more.
const TWICE: &[u8] =
    b"\x00\x00\x00\x25\x00\x00\x00\x00\x01\x00\x00\x00\x01\x00\x00\x00\x01\x00\x00\x00\x00\x00\x00\x00\x00\x00\x00\x00\x01\x00\x00\xbe\xef\x00\x00\x00\x00\x00\x00\x00\x25\x00\x00\x00\x00\x01\x00\x00\x00\x01\x00\x00\x00\x01\x00\x00\x00\x00\x00\x00\x00\x00\x00\x00\x00\x01\x00\x00\xbe\xef\x00\x00\x00";

/// The page of the first record.
const FIRST: Seen = Seen {
    page: 0,
    version: 1,
    place: 17,
    whole: true,
};

/// The page of the second.
const SECOND: Seen = Seen {
    page: 0,
    version: 2,
    place: 54,
    whole: false,
};

/// One log and nothing else. It tells nothing.
#[derive(Drop)]
struct OneLog {
    bytes: &'static [u8],
}

impl Storage for OneLog {
    ghost pages = { λ _. None };

    ghost logs = { λ _. None };

    ghost rooms = { λ _. None };

    ghost stops = { λ _. None };

    ghost failing = { λ _. None };

    ghost faults = { λ _ _. 0 };

    fn room(&mut self, _node: NodeNo, _bytes: u64) -> Result<(), NoMemory> {
        Ok(())
    }

    fn read_page(&mut self, _by: NodeNo, _page: PageNo, _out: &mut [u8]) -> Result<(), Failed> {
        Ok(())
    }

    fn log_len(&mut self, _by: NodeNo, _node: NodeNo) -> Result<u64, Failed> {
        Ok(self.bytes.len() as u64)
    }

    fn read_log(
        &mut self,
        _by: NodeNo,
        _node: NodeNo,
        from: u64,
        out: &mut [u8],
    ) -> Result<(), Failed> {
        let from = from as usize;
        for (place, byte) in out.iter_mut().enumerate() {
            *byte = self
                .bytes
                .get(from.saturating_add(place))
                .copied()
                .unwrap_or(0);
        }
        Ok(())
    }

    fn write_page(&mut self, _by: NodeNo, _page: PageNo, _bytes: &[u8]) -> Result<(), Failed> {
        Ok(())
    }

    fn force(&mut self, _node: NodeNo, _bytes: &[u8]) -> Result<(), Failed> {
        Ok(())
    }

    fn trim_log(&mut self, _node: NodeNo, _keep: u64) -> Result<(), Failed> {
        Ok(())
    }

    fn cut_log(&mut self, _node: NodeNo, _count: u64) -> Result<(), Failed> {
        Ok(())
    }
}

/// What a walk over a log answers, and the length of the whole records.
fn walked(rt: HostRuntime, log: &'static [u8]) -> Result<(Vec<Seen>, u64), Fail> {
    let config = Config::new(2, 4, 8, 2)?;
    let mut storage = OneLog { bytes: log };
    let mut walk = Walk::open(&config, 0);
    let mut seen = Vec::new(rt.alloc());
    for _ in 0..8 {
        match walk.next(&mut storage, 0)? {
            Some(page) => seen.push(page)?,
            None => break,
        }
    }
    Ok((seen, walk.whole()))
}

/// A stored page with entries of a log put over it.
fn put(log: &'static [u8], entries: &[(u64, bool)]) -> Result<[u8; 24], Fail> {
    let config = Config::new(2, 4, 8, 2)?;
    let mut storage = OneLog { bytes: log };
    let mut raw = [b'-'; 24];
    for (place, whole) in entries {
        apply_at(&mut storage, &config, 0, 0, *place, *whole, &mut raw)?;
    }
    Ok(raw)
}

#[test]
fn a_record_torn_at_every_length(rt: HostRuntime) -> Result<(), Fail> {
    for length in 73..LOG.len() {
        let log = LOG.get(..length).ok_or("no such length")?;
        let (seen, whole) = walked(rt, log)?;
        assert_eq!(rt; seen.as_slice(), [FIRST, SECOND].as_slice());
        assert_eq!(rt; whole, 73);
    }
    Ok(())
}

#[test]
fn both_formats_in_one_log(rt: HostRuntime) -> Result<(), Fail> {
    let (seen, whole) = walked(rt, LOG)?;
    let third = Seen {
        page: 0,
        version: 3,
        place: 90,
        whole: false,
    };
    let other = Seen {
        page: 2,
        version: 1,
        place: 110,
        whole: false,
    };
    assert_eq!(rt; seen.as_slice(), [FIRST, SECOND, third, other].as_slice());
    assert_eq!(rt; whole, 134);
    let raw = put(LOG, &[(17, true), (54, false), (90, false)])?;
    assert_eq!(rt; raw, *b"----------------\x07\x00\xbe\xab\xcd\x00\x00\x00");
    Ok(())
}

#[test]
fn a_walk_over_a_torn_log(rt: HostRuntime) -> Result<(), Fail> {
    let (seen, whole) = walked(rt, TWICE)?;
    assert_eq!(rt; seen.as_slice(), [FIRST].as_slice());
    assert_eq!(rt; whole, 37);
    let raw = put(TWICE, &[(17, true)])?;
    assert_eq!(rt; raw, *b"----------------\x00\x00\xbe\xef\x00\x00\x00\x00");
    Ok(())
}
