ghost use Rattle.std.specs.Prelude.{◌≡◌, ◌≢◌, ℕ, ◌+◌, ◌≤◌, ◌⊎◌, ◌++◌, length, drop, take, IfOk, IfSome, OnOk, IsOk, IsErr, Ok, Err};
ghost use Rattle.std.specs.Int.{w64, from_be_bytes, to_be_bytes};
ghost use Rattle.pcl_base.specs.Faults.{Rose};
ghost use Rattle.pcl_base.specs.declared.trace.Call.{Call as Kind};
ghost use Rattle.disk_model.specs.Disk.{told_at, IsIn, HasLength, with_page};
ghost use Rattle.disk_model.specs.Causes.{HasCauses};
ghost use Rattle.disk_model.specs.Stops.{Fate, Done, Stopped, change_fate, after_change, reading_fate, after_read, left_by};
ghost use Rattle.text_rules.specs.StoredPage.{stored_page, stored_bytes, first_number};
ghost use Rattle.page_store.specs.Answers.{AnswersPage, NamesOther};

use crate::fault::PageFault;
use disk_model::{Call, Storage};
use pcl_base::{Failed, NodeNo, PageNo, Version};

/// Where the bytes of the page begin in a stored page.
const HEAD: usize = 16;

/// Reads a stored page into `raw`, which has the length of a stored page, and answers its
/// version. The bytes of the page are `raw[16..]`. A page that was never written has version 0
/// and zero bytes, whatever else stands there.
///
/// `Failed` comes only where the storage's count of reads rose. `BadPage` names the number that
/// should stand first and another one that does.
pub fn read<S: Storage>(
    s: &mut S,
    by: NodeNo,
    page: PageNo,
    raw: &mut [u8],
) -> Result<Version, PageFault>
    requires node { IsIn (S.logs s.old) by }
    requires page { IsIn (S.pages s.old) page }
    requires length { HasLength (told_at (S.pages s.old) page) (length raw.old) }
    requires size { 16 ≤ length raw.old }
    ensures value { IfSome (told_at (S.pages s.old) page) (λ b. AnswersPage result (drop 16 raw.new) (stored_page page b)) }
    ensures other { NamesOther result (page + 1) }
    ensures pages { S.pages s.new ≡ S.pages s.old }
    ensures logs { S.logs s.new ≡ S.logs s.old }
    ensures rooms { S.rooms s.new ≡ S.rooms s.old }
    ensures stops { S.stops s.new ≡ S.stops s.old }
    ensures failing { S.failing s.new ≡ after_read (S.failing s.old) by }
    ensures done { reading_fate (S.failing s.old) by ≡ Fate.Done → result ≢ Err PageFault.Failed }
    ensures stopped { (kept : ℕ) → reading_fate (S.failing s.old) by ≡ Fate.Stopped kept → result ≡ Err PageFault.Failed }
    ensures counts { (k : Kind) → S.faults s.old k ≤ S.faults s.new k }
    ensures cause { result ≡ Err PageFault.Failed → Rose (S.faults s.old Call.Read) (S.faults s.new Call.Read) }
{
    match s.read_page(by, page, raw) {
        Err(Failed) => Err(PageFault::Failed),
        Ok(()) => judged(page, raw),
    }
}

/// Writes a page with its version. `raw` has the length of a stored page, and its bytes from
/// place 16 on are those of the page; the places before them are filled in.
///
/// `Failed` comes only where the storage's count of page writes rose; the stored page is then
/// the old one or the new one.
pub fn write<S: Storage>(
    s: &mut S,
    by: NodeNo,
    page: PageNo,
    version: Version,
    raw: &mut [u8],
) -> Result<(), Failed>
    requires node { IsIn (S.logs s.old) by }
    requires page { IsIn (S.pages s.old) page }
    requires length { HasLength (told_at (S.pages s.old) page) (length raw.old) }
    requires size { 16 ≤ length raw.old }
    ensures raw { raw.new ≡ stored_bytes page (record { version = version; bytes = drop 16 raw.old }) }
    ensures written { OnOk result (S.pages s.new ≡ with_page (S.pages s.old) page raw.new) }
    ensures torn { (S.pages s.new ≡ S.pages s.old) ⊎ (S.pages s.new ≡ with_page (S.pages s.old) page raw.new) }
    ensures logs { S.logs s.new ≡ S.logs s.old }
    ensures rooms { S.rooms s.new ≡ S.rooms s.old }
    ensures stops { S.stops s.new ≡ after_change (S.stops s.old) by }
    ensures failing { S.failing s.new ≡ S.failing s.old }
    ensures done { change_fate (S.stops s.old) by ≡ Fate.Done → IsOk result }
    ensures stopped { (kept : ℕ) → change_fate (S.stops s.old) by ≡ Fate.Stopped kept → IsErr result }
    ensures left { (kept : ℕ) → change_fate (S.stops s.old) by ≡ Fate.Stopped kept → S.pages s.new ≡ left_by kept (S.pages s.old) (with_page (S.pages s.old) page raw.new) }
    ensures cause { HasCauses Call.Write (S.faults s.old) (S.faults s.new) result }
{
    set_head(raw, page, version);
    s.write_page(by, page, raw)
}

/// What the bytes of a stored page say. Those of a page that was never written become zero.
fn judged(page: PageNo, raw: &mut [u8]) -> Result<Version, PageFault>
    requires { 16 ≤ length raw.old }
    ensures value { AnswersPage result (drop 16 raw.new) (stored_page page raw.old) }
    ensures other { NamesOther result (page + 1) }
    ensures read { result ≢ Err PageFault.Failed }
{
    let expected = page as u64 + 1;
    let found = number_at(raw, 0);
    if found == 0 {
        raw[HEAD..].fill(0);
        return Ok(0);
    }
    if found != expected {
        return Err(PageFault::BadPage { expected, found });
    }
    Ok(number_at(raw, 8))
}

/// The number of eight bytes from a place on.
fn number_at(raw: &[u8], place: usize) -> u64
    requires within { place + 8 ≤ length raw.now }
    requires small { place ≤ 8 }
    ensures { result ≡ from_be_bytes w64 (take 8 (drop place raw.now)) }
{
    let mut bytes = [0u8; 8];
    bytes.copy_from_slice(&raw[place..place + 8]);
    u64::from_be_bytes(bytes)
}

/// Puts the page's number plus one and its version before the bytes of the page.
fn set_head(raw: &mut [u8], page: PageNo, version: Version)
    requires { 16 ≤ length raw.old }
    ensures { raw.new ≡ stored_bytes page (record { version = version; bytes = drop 16 raw.old }) }
{
    put_number(raw, 0, page as u64 + 1);
    put_number(raw, 8, version);
}

/// Puts a number into the eight bytes from a place on.
fn put_number(raw: &mut [u8], place: usize, number: u64)
    requires within { place + 8 ≤ length raw.old }
    requires small { place ≤ 8 }
    ensures { raw.new ≡ take place raw.old ++ to_be_bytes w64 number ++ drop (place + 8) raw.old }
{
    raw[place..place + 8].copy_from_slice(&number.to_be_bytes());
}

#[cfg(test)]
mod tests {
    use super::*;

    #[test]
    fn a_stored_page_begins_with_its_number_and_version(rt: HostRuntime) {
        let mut raw = [9u8; 24];
        raw[16..].copy_from_slice(b"\x00\x00\xbe\xef\x00\x00\x00\x00");
        set_head(&mut raw, 0, 1);
        let stored =
            b"\x00\x00\x00\x00\x00\x00\x00\x01\x00\x00\x00\x00\x00\x00\x00\x01\x00\x00\xbe\xef\x00\x00\x00\x00";
        assert_eq!(rt; raw, *stored);
        assert_eq!(rt; judged(0, &mut raw), Ok(1));
        assert_eq!(rt;
            judged(1, &mut raw),
            Err(PageFault::BadPage {
                expected: 2,
                found: 1
            })
        );
    }
}
