ghost use Rattle.std.specs.Prelude.{◌≡◌, ℕ, ◌+◌, ◌≤◌, Some, true, false, length, IfSome, IfErr, OnOk, OnErr};
ghost use Rattle.pcl_base.specs.Faults.{Rose};
ghost use Rattle.pcl_base.specs.Limits.{Sizes};
ghost use Rattle.pcl_base.specs.declared.trace.Call.{Call as Kind};
ghost use Rattle.text_rules.specs.StoredPage.{stored_page};
ghost use Rattle.disk_model.specs.Disk.{told_at, IsIn, HasLength};
ghost use Rattle.disk_model.specs.Stops.{Fate, Done, Stopped, reading_fate, after_read};
ghost use Rattle.node_rules.specs.BufferRule.{has_slot};
ghost use Rattle.home.specs.Grants.{Puts, PutsBytes, IsReadFault, is_read_failed};

use crate::fault::HomeFault;
use buffer_pool::BufferPool;
use disk_model::{Call, Storage};
use page_store::{PageFault, read};
use pcl_base::{NodeNo, PageNo, Version};

/// Where the bytes of a page begin in a stored page.
const HEAD: usize = 16;

/// A page that was granted at a version is read by way of `raw`, which has the length of a stored
/// page, and put into its slot as a clean copy.
///
/// `Failed` of a read comes only where the count of reads rose, and `Differs` where the stored page
/// has another number or version. Both leave the buffer as before.
pub(crate) fn fetch<S: Storage>(
    s: &mut S,
    by: NodeNo,
    page: PageNo,
    version: Version,
    raw: &mut [u8],
    pool: &mut BufferPool,
) -> Result<(), HomeFault>
    requires node { IsIn (S.logs s.old) by }
    requires page { IsIn (S.pages s.old) page }
    requires stored { HasLength (told_at (S.pages s.old) page) (length raw.old) }
    requires length { length raw.old ≡ pool.old.size + 16 }
    requires slot { has_slot pool.old page ≡ true }
    ensures raw { length raw.new ≡ length raw.old }
    ensures told { IfSome (told_at (S.pages s.old) page) (λ b. Puts page version result (stored_page page b) pool.old pool.new) }
    ensures content { OnOk result (PutsBytes page version pool.old pool.new) }
    ensures fault { IfErr result (IsReadFault page) }
    ensures err { OnErr result (pool.new ≡ pool.old) }
    ensures pages { S.pages s.new ≡ S.pages s.old }
    ensures logs { S.logs s.new ≡ S.logs s.old }
    ensures rooms { S.rooms s.new ≡ S.rooms s.old }
    ensures stops { S.stops s.new ≡ S.stops s.old }
    ensures failing { S.failing s.new ≡ after_read (S.failing s.old) by }
    ensures done { reading_fate (S.failing s.old) by ≡ Fate.Done → is_read_failed result ≡ false }
    ensures stopped { (kept : ℕ) → reading_fate (S.failing s.old) by ≡ Fate.Stopped kept → is_read_failed result ≡ true }
    ensures counts { (k : Kind) → S.faults s.old k ≤ S.faults s.new k }
    ensures cause { is_read_failed result ≡ true → Rose (S.faults s.old Call.Read) (S.faults s.new Call.Read) }
{
    match read(s, by, page, raw) {
        Err(PageFault::Failed) => Err(HomeFault::Failed {
            call: Call::Read,
            kept: false,
        }),
        Err(PageFault::BadPage { expected, found }) => Err(HomeFault::Differs {
            page,
            expected,
            found,
        }),
        Ok(found) => {
            if found != version {
                return Err(HomeFault::Differs {
                    page,
                    expected: version,
                    found,
                });
            }
            pool.install(page, version, &raw[HEAD..], false);
            Ok(())
        }
    }
}
