ghost use Rattle.std.specs.Prelude.{None};

use super::*;
use disk_model::Storage;
use pcl_base::{Config, Failed, NoMemory, NodeNo, PageNo};
use std::test::Fail;

/// Three records, of 37, 55 and 37 bytes: page 0 at version 1; page 0 at version 2 with page 1 at
/// version 1; and page 1 at version 2.
const LOG: &[u8] =
    b"\x00\x00\x00\x25\x00\x00\x00\x00\x01\x00\x00\x00\x01\x00\x00\x00\x01\x00\x00\x00\x00\x00\x00\x00\x00\x00\x00\x00\x01\x00\x00\x00\x00\x00\x00\x00\x00\x00\x00\x00\x37\x80\x00\x00\x00\x01\x00\x00\x00\x02\x00\x00\x00\x02\x00\x00\x00\x00\x00\x00\x00\x00\x00\x00\x00\x02\x00\x01\x00\x00\x00\x01\x07\x00\x00\x00\x01\x00\x00\x00\x00\x00\x00\x00\x01\x00\x01\x00\x00\x00\x01\x01\x00\x00\x00\x25\x80\x00\x00\x00\x01\x00\x00\x00\x03\x00\x00\x00\x01\x00\x00\x00\x01\x00\x00\x00\x00\x00\x00\x00\x02\x00\x01\x00\x03\x00\x02\xab\xcd";

/// This log, and two stored pages by their number and their version. It tells nothing.
#[derive(Drop)]
struct Disk {
    pages: [(u8, u8); 2],
}

impl Storage for Disk {
    ghost pages = { λ _. None };

    ghost logs = { λ _. None };

    ghost rooms = { λ _. None };

    ghost stops = { λ _. None };

    ghost failing = { λ _. None };

    ghost faults = { λ _ _. 0 };

    fn room(&mut self, _node: NodeNo, _bytes: u64) -> Result<(), NoMemory> {
        Ok(())
    }

    fn read_page(&mut self, _by: NodeNo, page: PageNo, out: &mut [u8]) -> Result<(), Failed> {
        let (number, version) = self.pages.get(page as usize).copied().unwrap_or((0, 0));
        for (place, byte) in out.iter_mut().enumerate() {
            *byte = match place {
                7 => number,
                15 => version,
                _ => 0,
            };
        }
        Ok(())
    }

    fn log_len(&mut self, _by: NodeNo, _node: NodeNo) -> Result<u64, Failed> {
        Ok(LOG.len() as u64)
    }

    fn read_log(
        &mut self,
        _by: NodeNo,
        _node: NodeNo,
        from: u64,
        out: &mut [u8],
    ) -> Result<(), Failed> {
        let from = from as usize;
        for (place, byte) in out.iter_mut().enumerate() {
            *byte = LOG.get(from.saturating_add(place)).copied().unwrap_or(0);
        }
        Ok(())
    }

    fn write_page(&mut self, _by: NodeNo, _page: PageNo, _bytes: &[u8]) -> Result<(), Failed> {
        Ok(())
    }

    fn force(&mut self, _node: NodeNo, _bytes: &[u8]) -> Result<(), Failed> {
        Ok(())
    }

    fn trim_log(&mut self, _node: NodeNo, _keep: u64) -> Result<(), Failed> {
        Ok(())
    }

    fn cut_log(&mut self, _node: NodeNo, _count: u64) -> Result<(), Failed> {
        Ok(())
    }
}

/// How much of the log may be cut beside these stored pages.
fn cut(pages: [(u8, u8); 2]) -> Result<Result<u64, RedoFault>, Fail> {
    let config = Config::new(1, 2, 8, 2)?;
    Ok(cuttable(&mut Disk { pages }, &config, 0, &mut [0u8; 24]))
}

#[test]
fn records_on_disk_are_cut_up_to_the_first_that_is_not(rt: HostRuntime) -> Result<(), Fail> {
    let bytes = [
        ([(0, 0), (0, 0)], 0),
        ([(1, 0), (2, 2)], 0),
        ([(1, 1), (2, 2)], 37),
        ([(1, 2), (0, 0)], 37),
        ([(1, 2), (2, 1)], 92),
        ([(1, 9), (2, 1)], 92),
        ([(1, 2), (2, 2)], 129),
    ];
    for (pages, count) in bytes {
        assert_eq!(rt; cut(pages)?, Ok(count));
    }
    Ok(())
}

#[test]
fn a_page_with_a_wrong_number_is_named(rt: HostRuntime) -> Result<(), Fail> {
    let fault = RedoFault::BadPage {
        page: 1,
        expected: 2,
        found: 1,
    };
    assert_eq!(rt; cut([(1, 2), (1, 2)])?, Err(fault));
    assert_eq!(rt; cut([(1, 1), (1, 2)])?, Ok(37));
    Ok(())
}
