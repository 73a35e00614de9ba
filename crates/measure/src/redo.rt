ghost use Rattle.std.specs.Prelude.{None};

use disk_model::Storage;
use partition_redo::prepare;
use pcl_base::{Config, Failed, NoMemory, NodeNo, PageNo};
use std::alloc::Global;

/// The pages whose records the log has, one after another.
const PAGES: u32 = 8;

/// The mark of node 0 in a record of whole pages.
const WHOLE: u8 = 0;

/// The mark of node 0 in a record of changed ranges.
const CHANGED: u8 = 128;

/// The bytes of a record of one page before the page, its length among them.
const HEAD: u32 = 29;

/// The most bytes of a part.
const MOST: usize = 4_096;

/// A changed range of one byte.
const RANGE: &[u8] = b"\x00\x01\x00\x00\x00\x01\x07";

/// Zero pages and one log. It tells nothing.
#[derive(Drop)]
struct OneLog {
    bytes: Vec<u8>,
}

impl Storage for OneLog {
    ghost pages = { λ _. None };

    ghost logs = { λ _. None };

    ghost rooms = { λ _. None };

    ghost stops = { λ _. None };

    ghost failing = { λ _. None };

    ghost faults = { λ _ _. 0 };

    fn room(&mut self, _node: NodeNo, _bytes: u64) -> Result<(), NoMemory> {
        Ok(())
    }

    fn read_page(&mut self, _by: NodeNo, _page: PageNo, out: &mut [u8]) -> Result<(), Failed> {
        out.fill(0);
        Ok(())
    }

    fn log_len(&mut self, _by: NodeNo, _node: NodeNo) -> Result<u64, Failed> {
        Ok(self.bytes.len() as u64)
    }

    fn read_log(
        &mut self,
        _by: NodeNo,
        _node: NodeNo,
        from: u64,
        out: &mut [u8],
    ) -> Result<(), Failed> {
        let Some(rest) = self.bytes.get(from as usize..) else {
            return Ok(());
        };
        if let Some(piece) = rest.get(..out.len()) {
            out.copy_from_slice(piece);
        }
        Ok(())
    }

    fn write_page(&mut self, _by: NodeNo, _page: PageNo, _bytes: &[u8]) -> Result<(), Failed> {
        Ok(())
    }

    fn force(&mut self, _node: NodeNo, _bytes: &[u8]) -> Result<(), Failed> {
        Ok(())
    }

    fn trim_log(&mut self, _node: NodeNo, _keep: u64) -> Result<(), Failed> {
        Ok(())
    }

    fn cut_log(&mut self, _node: NodeNo, _count: u64) -> Result<(), Failed> {
        Ok(())
    }
}

/// Plans the redo of all pages over a log of so many records with images of `size` bytes.
pub(crate) fn images(
    alloc: Global,
    size: u32,
    records: u32,
    rounds: u32,
) -> Result<usize, NoMemory> {
    let image = vec![in alloc; 0u8; size as usize]?;
    plans(alloc, size, WHOLE, image.as_slice(), records, rounds)
}

/// Plans the redo of all pages over a log of so many records of one changed byte.
pub(crate) fn ranges(alloc: Global, records: u32, rounds: u32) -> Result<usize, NoMemory> {
    plans(alloc, 8, CHANGED, RANGE, records, rounds)
}

/// Plans a redo so many times, and counts the pages of the plans.
fn plans(
    alloc: Global,
    size: u32,
    mark: u8,
    part: &[u8],
    records: u32,
    rounds: u32,
) -> Result<usize, NoMemory> {
    let Ok(config) = Config::new(1, PAGES, size, 2) else {
        return Ok(0);
    };
    let pages = Vec::from_slice(alloc, &[0, 1, 2, 3, 4, 5, 6, 7])?;
    let bytes = log_of(alloc, mark, part, records)?;
    let mut storage = OneLog { bytes };
    let mut count: usize = 0;
    for _ in 0..rounds {
        let Ok(plan) = prepare(alloc, &mut storage, &config, 0, &pages) else {
            return Err(NoMemory);
        };
        count = count.saturating_add(plan.versions().len());
    }
    Ok(count)
}

/// A log of records of one page each, made in memory that is taken once.
fn log_of(alloc: Global, mark: u8, part: &[u8], records: u32) -> Result<Vec<u8>, NoMemory> {
    let mut log = Vec::new(alloc);
    let record = part.len().saturating_add(HEAD as usize);
    log.reserve(record.saturating_mul(records as usize))?;
    for record in 0..records {
        let version = record as u64 / PAGES as u64 + 1;
        put_record(&mut log, mark, record % PAGES, version, part)?;
    }
    Ok(log)
}

/// Appends a record of one page.
fn put_record(
    log: &mut Vec<u8>,
    mark: u8,
    page: PageNo,
    version: u64,
    part: &[u8],
) -> Result<(), NoMemory> {
    let length = HEAD + part.len().min(MOST) as u32;
    log.extend_from_slice(&length.to_be_bytes())?;
    log.push(mark)?;
    for number in [1u32, 1, 1, page] {
        log.extend_from_slice(&number.to_be_bytes())?;
    }
    log.extend_from_slice(&version.to_be_bytes())?;
    log.extend_from_slice(part)?;
    Ok(())
}
