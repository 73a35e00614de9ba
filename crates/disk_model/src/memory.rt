ghost use Rattle.std.specs.Prelude.{◌≡◌, ◌<◌, ◌≤◌, length, replicate, Some, None, IfOk, slice_set};
ghost use Rattle.disk_model.specs.Memory.{opened, IsCopy, AreCopies, no_log, bytes_in, rooms_in, count_of};

use crate::ahead::{next_change, next_read};
use crate::counts::FaultCounts;
use crate::logs::{append_to, cut_in, empty_logs, reserve_in, same_logs, trim_in};
use crate::pieces::{LogFile, RawPage};
use crate::stop::Stop;
use crate::storage::Storage;
use pcl_base::{Call, Config, Failed, NoMemory, NodeNo, PageNo};
use std::alloc::Global;
use std::marker::Model;

/// A storage in memory. It tells all of its content, and it fails exactly at the calls that were
/// asked to: at a node's armed stop of its changing calls, and at a node's failing read.
#[derive(Debug, Drop)]
pub struct MemStorage {
    alloc: Global,
    pages: Vec<RawPage>,
    logs: Vec<LogFile>,
    stops: Vec<Option<Stop>>,
    failing: Vec<Option<u32>>,
    faults: FaultCounts,
}

impl Model for MemStorage {
    ghost use Rattle.std.specs.Prelude.{◌≡◌, length};
    ghost use Rattle.disk_model.specs.Memory.{Disk};

    ghost Value = { Disk };

    ghost view = { λ s. record { pages = s.pages.items; logs = s.logs.items; stops = s.stops.items; failing = s.failing.items; faults = s.faults } };

    ghost invariant = { λ s. (length s.stops.items ≡ length s.logs.items) × (length s.failing.items ≡ length s.logs.items) };
}

/// So many pages of `size` zero bytes.
fn zero_pages(alloc: Global, count: usize, size: usize) -> Result<Vec<RawPage>, NoMemory>
    ensures { IfOk result (λ v. v.items ≡ replicate count (replicate size 0)) }
{
    let mut pages = Vec::with_capacity(alloc, count)?;
    for _page in 0..count {
        pages.push(RawPage::zeroed(alloc, size)?)?;
    }
    Ok(pages)
}

/// The same pages.
fn copied_pages(alloc: Global, pages: &[RawPage]) -> Result<Vec<RawPage>, NoMemory>
    ensures { IfOk result (λ v. v.items ≡ pages.now) }
{
    let mut copies = Vec::with_capacity(alloc, pages.len())?;
    for page in pages {
        copies.push(page.copy()?)?;
    }
    Ok(copies)
}

impl MemStorage {
    /// Pages of zero bytes and empty logs, with no stop, no failing read and no fault yet.
    pub fn open(alloc: Global, config: &Config) -> Result<MemStorage, NoMemory>
        ensures { IfOk result (λ d. d ≡ opened config.now) }
    {
        let nodes = config.nodes() as usize;
        Ok(MemStorage {
            alloc,
            pages: zero_pages(alloc, config.pages() as usize, config.size() as usize + 16)?,
            logs: empty_logs(alloc, nodes)?,
            stops: vec![in alloc; None; nodes]?,
            failing: vec![in alloc; None; nodes]?,
            faults: FaultCounts::none(),
        })
    }

    /// A storage with the same pages and logs and at least the same room, with no stop, no
    /// failing read and the counts 0.
    pub fn copy(&self) -> Result<MemStorage, NoMemory>
        ensures { IfOk result (λ d. IsCopy self.now d) }
    {
        let nodes = self.logs.len();
        Ok(MemStorage {
            alloc: self.alloc,
            pages: copied_pages(self.alloc, self.pages.as_slice())?,
            logs: same_logs(self.alloc, self.logs.as_slice())?,
            stops: vec![in self.alloc; None; nodes]?,
            failing: vec![in self.alloc; None; nodes]?,
            faults: FaultCounts::none(),
        })
    }

    /// Makes the `call`-th changing call of a node from now on fail, where 1 is its next one: a
    /// force keeps the first `kept` of its bytes, or all that it has; another call is undone
    /// where `kept` is 0, else done. It takes the place of an earlier stop of that node, and is
    /// gone once it fired.
    pub fn arm(&mut self, node: NodeNo, call: u32, kept: u32)
        requires node { node < length self.old.logs }
        requires call { 1 ≤ call }
        ensures { self.new ≡ record self.old { stops = slice_set self.old.stops node (Some (record { call = call; kept = kept })) } }
    {
        self.stops[node as usize] = Some(Stop { call, kept });
    }

    /// Takes the armed stop of a node away, if it has one.
    pub fn disarm(&mut self, node: NodeNo)
        requires { node < length self.old.logs }
        ensures { self.new ≡ record self.old { stops = slice_set self.old.stops node None } }
    {
        self.stops[node as usize] = None;
    }

    /// Makes the `call`-th reading call of a node from now on fail, where 1 is its next one. It
    /// takes the place of an earlier one of that node, and is gone once it came due.
    pub fn fail_read(&mut self, by: NodeNo, call: u32)
        requires node { by < length self.old.logs }
        requires call { 1 ≤ call }
        ensures { self.new ≡ record self.old { failing = slice_set self.old.failing by (Some call) } }
    {
        self.failing[by as usize] = Some(call);
    }
}

impl Storage for MemStorage {
    ghost pages = { λ d. Some d.pages };

    ghost logs = { λ d. Some (bytes_in d.logs) };

    ghost rooms = { λ d. Some (rooms_in d.logs) };

    ghost stops = { λ d. Some d.stops };

    ghost failing = { λ d. Some d.failing };

    ghost faults = { λ d. count_of d.faults };

    fn room(&mut self, node: NodeNo, bytes: u64) -> Result<(), NoMemory> {
        reserve_in(&mut self.logs, node, bytes as usize)
    }

    fn read_page(&mut self, by: NodeNo, page: PageNo, out: &mut [u8]) -> Result<(), Failed> {
        if next_read(&mut self.failing, by) {
            return Err(self.faults.fail(Call::Read));
        }
        out.copy_from_slice(self.pages[page as usize].as_slice());
        Ok(())
    }

    fn log_len(&mut self, by: NodeNo, node: NodeNo) -> Result<u64, Failed> {
        if next_read(&mut self.failing, by) {
            return Err(self.faults.fail(Call::Log));
        }
        Ok(self.logs[node as usize].as_slice().len() as u64)
    }

    fn read_log(
        &mut self,
        by: NodeNo,
        node: NodeNo,
        from: u64,
        out: &mut [u8],
    ) -> Result<(), Failed> {
        if next_read(&mut self.failing, by) {
            return Err(self.faults.fail(Call::Log));
        }
        let from = from as usize;
        let log = self.logs[node as usize].as_slice();
        out.copy_from_slice(&log[from..from + out.len()]);
        Ok(())
    }

    fn write_page(&mut self, by: NodeNo, page: PageNo, bytes: &[u8]) -> Result<(), Failed> {
        match next_change(&mut self.stops, by) {
            None => {
                self.pages[page as usize].write(bytes);
                Ok(())
            }
            Some(0) => Err(self.faults.fail(Call::Write)),
            Some(_) => {
                self.pages[page as usize].write(bytes);
                Err(self.faults.fail(Call::Write))
            }
        }
    }

    fn force(&mut self, node: NodeNo, bytes: &[u8]) -> Result<(), Failed> {
        match next_change(&mut self.stops, node) {
            None => {
                append_to(&mut self.logs, node, bytes, bytes.len());
                Ok(())
            }
            Some(kept) => {
                let kept = bytes.len().min(kept as usize);
                append_to(&mut self.logs, node, bytes, kept);
                Err(self.faults.fail(Call::Force))
            }
        }
    }

    fn trim_log(&mut self, node: NodeNo, keep: u64) -> Result<(), Failed> {
        match next_change(&mut self.stops, node) {
            None => {
                trim_in(&mut self.logs, node, keep as usize);
                Ok(())
            }
            Some(0) => Err(self.faults.fail(Call::Trim)),
            Some(_) => {
                trim_in(&mut self.logs, node, keep as usize);
                Err(self.faults.fail(Call::Trim))
            }
        }
    }

    fn cut_log(&mut self, node: NodeNo, count: u64) -> Result<(), Failed> {
        match next_change(&mut self.stops, node) {
            None => {
                cut_in(&mut self.logs, node, count as usize);
                Ok(())
            }
            Some(0) => Err(self.faults.fail(Call::Cut)),
            Some(_) => {
                cut_in(&mut self.logs, node, count as usize);
                Err(self.faults.fail(Call::Cut))
            }
        }
    }
}

#[cfg(test)]
mod tests {
    use super::*;
    use std::test::Fail;

    #[test]
    fn memory_that_is_there_is_taken(rt: HostRuntime) -> Result<(), Fail> {
        let config = Config::new(1, 1, 8, 2)?;
        let mut storage = MemStorage::open(rt.alloc(), &config)
            .ok()
            .ok_or("no memory")?;
        assert!(rt; storage.room(0, 3).is_ok());
        assert!(rt; storage.copy().is_ok());
        Ok(())
    }
}
