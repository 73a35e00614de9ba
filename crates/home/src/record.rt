ghost use Rattle.std.specs.Prelude.{◌≡◌, ◌≤◌, None, map, length, IfOk};
ghost use Rattle.std.specs.List.{All};
ghost use Rattle.node_rules.specs.OpenTxs.{pending_of};
ghost use Rattle.node_rules.specs.EndRule.{pages_written, logged, ranges_of, range_of};
ghost use Rattle.home_laws.specs.Homes.{IsHome};
ghost use Rattle.home_laws.specs.EndNeeds.{IsPublishable};
ghost use Rattle.home.specs.Commits.{exclusive_pages};

use crate::parts::Parts;
use crate::runs::Run;
use pcl_base::{
    ChangedRange, Held, Items, Logged, Mode, NoMemory, PageNo, Part, Ranges, Record, TxId,
};
use std::alloc::Global;

/// The record of a commit.
impl Parts {
    /// The pages that a transaction wrote, which doesn't wait, rising by number.
    pub(crate) fn pages_written(&self, tx: TxId) -> Result<Vec<PageNo>, NoMemory>
        requires home { IsHome self.now.home }
        requires none { pending_of self.now.home.txs tx ≡ None }
        ensures { IfOk result (λ ps. ps.items ≡ pages_written self.now.home tx) }
    {
        let mut pages = exclusive_pages(self.alloc, self.txs.locks(tx))?;
        pages.sort_unstable();
        Ok(pages)
    }

    /// The record of a transaction that wrote these pages: of each the version that the commit makes,
    /// and the bytes of the written runs.
    pub(crate) fn record(&self, tx: TxId, pages: &[PageNo]) -> Result<Record, NoMemory>
        requires home { IsHome self.now.home }
        requires pages { All (IsPublishable tx self.now.home.pool) pages.now }
        ensures { IfOk result (λ r. r ≡ record { tx = tx; changes = map (logged self.now.home tx) pages.now }) }
    {
        let mut changes = Items::new(self.alloc);
        for page in pages {
            changes.push(self.logged(tx, *page)?)?;
        }
        Ok(Record { tx, changes })
    }

    /// What stands in the record of a page.
    fn logged(&self, tx: TxId, page: PageNo) -> Result<Logged, NoMemory>
        requires home { IsHome self.now.home }
        requires page { IsPublishable tx self.now.home.pool page }
        ensures { IfOk result (λ x. x ≡ logged self.now.home tx page) }
    {
        match self.pool.private_bytes(tx, page) {
            None => unreachable!(),
            Some(bytes) => {
                let ranges = ranges_of(self.alloc, bytes, self.written.runs(tx, page))?;
                Ok(Logged {
                    page,
                    version: self.version(page) + 1,
                    part: Part::Ranges(ranges),
                })
            }
        }
    }
}

/// The pages of exclusive locks, in the order of the locks.
fn exclusive_pages(alloc: Global, locks: &[Held]) -> Result<Vec<PageNo>, NoMemory>
    ensures { IfOk result (λ ps. ps.items ≡ exclusive_pages locks.now) }
{
    let mut pages = Vec::new(alloc);
    for lock in locks {
        if lock.mode == Mode::Exclusive {
            pages.push(lock.page)?;
        }
    }
    Ok(pages)
}

/// The bytes of a page at each of these runs.
fn ranges_of(alloc: Global, page: &[u8], runs: &[Run]) -> Result<Ranges, NoMemory>
    requires { All (λ r. (r.from ≤ r.to) × (r.to ≤ length page.now)) runs.now }
    ensures { IfOk result (λ xs. xs ≡ ranges_of page.now runs.now) }
{
    let mut ranges = Items::new(alloc);
    for run in runs {
        ranges.push(range_of(alloc, page, *run)?)?;
    }
    Ok(ranges)
}

/// The bytes of a page at a run.
fn range_of(alloc: Global, page: &[u8], run: Run) -> Result<ChangedRange, NoMemory>
    requires order { run.from ≤ run.to }
    requires within { run.to ≤ length page.now }
    ensures { IfOk result (λ x. x ≡ range_of page.now run) }
{
    let bytes = Vec::from_slice(alloc, &page[run.from as usize..run.to as usize])?;
    Ok(ChangedRange {
        place: run.from,
        bytes: Items::of(bytes),
    })
}
