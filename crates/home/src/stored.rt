ghost use Rattle.std.specs.Prelude.{◌≡◌, ℕ, ◌≤◌, ◌+◌, [], ◌∷◌, drop, length, true, false};
ghost use Rattle.pcl_base.specs.Faults.{Rose};
ghost use Rattle.pcl_base.specs.Limits.{Sizes};
ghost use Rattle.pcl_base.specs.declared.trace.Call.{Call as Kind};
ghost use Rattle.text_rules.specs.StoredPage.{stored_bytes};
ghost use Rattle.disk_model.specs.Disk.{told_at, IsIn, HasLength, HasSizes};
ghost use Rattle.node_rules.specs.DiskCalls.{WritePage};
ghost use Rattle.home.specs.Device.{told_by, MadeIf};

use disk_model::{Call, Storage};
use pcl_base::{Failed, NodeNo, PageNo, Version};

/// Where the bytes of the page begin in a stored page.
const HEAD: usize = 16;

/// Writes a page with its version by way of `raw`, which has the length of a stored page. True where
/// it was done; else the storage's count of page writes rose, and the stored page is the old one or
/// the new one.
pub(crate) fn write_stored<S: Storage>(
    s: &mut S,
    by: NodeNo,
    page: PageNo,
    version: Version,
    bytes: &[u8],
    raw: &mut [u8],
) -> bool
    requires node { IsIn (S.logs s.old) by }
    requires page { IsIn (S.pages s.old) page }
    requires stored { HasLength (told_at (S.pages s.old) page) (length raw.old) }
    requires length { length raw.old ≡ length bytes.now + 16 }
    ensures raw { length raw.new ≡ length raw.old }
    ensures made { MadeIf by true result (WritePage page (stored_bytes page (record { version = version; bytes = bytes.now })) ∷ []) (told_by (S.pages s.old) (S.logs s.old) (S.stops s.old)) (told_by (S.pages s.new) (S.logs s.new) (S.stops s.new)) }
    ensures sizes { (c : Sizes) → length raw.old ≡ c.size + 16 → HasSizes c (S.pages s.old) (S.logs s.old) (S.rooms s.old) → HasSizes c (S.pages s.new) (S.logs s.new) (S.rooms s.new) }
    ensures rooms { S.rooms s.new ≡ S.rooms s.old }
    ensures failing { S.failing s.new ≡ S.failing s.old }
    ensures counts { (k : Kind) → S.faults s.old k ≤ S.faults s.new k }
    ensures cause { result ≡ false → Rose (S.faults s.old Call.Write) (S.faults s.new Call.Write) }
{
    put_bytes(raw, bytes);
    match page_store::write(s, by, page, version, raw) {
        Ok(()) => true,
        Err(Failed) => false,
    }
}

/// Puts the bytes of a page behind the head of a stored page.
fn put_bytes(raw: &mut [u8], bytes: &[u8])
    requires { length raw.old ≡ length bytes.now + 16 }
    ensures length { length raw.new ≡ length raw.old }
    ensures bytes { drop 16 raw.new ≡ bytes.now }
{
    raw[HEAD..].copy_from_slice(bytes);
}
