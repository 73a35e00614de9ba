ghost use Rattle.std.specs.Prelude.{◌≡◌, ◌≢◌, ℕ, suc, ◌≤◌, ◌<◌, ◌+◌, List, Option, Some, None, Ok, Err, IfOk, OnOk, IfErr, IfSome, IsOk, length, take, drop};
ghost use Rattle.pcl_base.specs.Faults.{Rose};
ghost use Rattle.pcl_base.specs.declared.trace.Call.{Call as Kind};
ghost use Rattle.disk_model.specs.Disk.{IsIn};
ghost use Rattle.disk_model.specs.Causes.{HasCauses};
ghost use Rattle.text_rules.specs.LogRecord.{ranges_field, part_field};
ghost use Rattle.redo_log.specs.Told.{IsLog, NoneFails};
ghost use Rattle.redo_log.specs.Placed.{Placed, IsPlaced};
ghost use Rattle.redo_log.specs.Applied.{applied, put_read, part_put};
ghost use Rattle.redo_log.specs.Walks.{Reads, left_of};
ghost use Rattle.redo_log.specs.Halting.{halt_stop};

use crate::numbers::{between16, counted16};
use crate::reader::{Halt, Reader};
use disk_model::{Call, Storage};
use pcl_base::{Config, Failed, NodeNo};

/// The bytes before a page in a stored page.
const BEFORE: usize = 16;

/// The bytes of the page and the version at the front of an entry.
const HEAD: u64 = 12;

/// Puts the entry at a place that a walk answered over a page: `raw[16..]` becomes the image of an
/// entry of format 1 (`whole`), and gets the ranges of an entry of format 2 put over it. `raw` has
/// the length of a stored page; its first 16 bytes stay. It takes no memory.
///
/// `Failed` comes only where the storage's count of `Log` rose; what `raw[16..]` is then isn't
/// told.
pub fn apply_at<S: Storage>(
    s: &mut S,
    config: &Config,
    by: NodeNo,
    node: NodeNo,
    place: u64,
    whole: bool,
    raw: &mut [u8],
) -> Result<(), Failed>
    requires by { IsIn (S.logs s.old) by }
    requires node { IsIn (S.logs s.old) node }
    requires size { length raw.old ≡ config.now.size + 16 }
    requires answered { (log : List ℕ) → IsLog (S.logs s.old) node log → (x : Placed) × IsPlaced config.now log place whole x }
    ensures applied { OnOk result ((log : List ℕ) (x : Placed) → IsLog (S.logs s.old) node log → IsPlaced config.now log place whole x → raw.new ≡ applied x.entry.part raw.old) }
    ensures head { take 16 raw.new ≡ take 16 raw.old }
    ensures pages { S.pages s.new ≡ S.pages s.old }
    ensures logs { S.logs s.new ≡ S.logs s.old }
    ensures rooms { S.rooms s.new ≡ S.rooms s.old }
    ensures stops { S.stops s.new ≡ S.stops s.old }
    ensures calm { (l : List (Option ℕ)) → NoneFails (S.failing s.old) by l → NoneFails (S.failing s.new) by l }
    ensures quiet { (l : List (Option ℕ)) → NoneFails (S.failing s.old) by l → IsOk result }
    ensures cause { HasCauses Call.Log (S.faults s.old) (S.faults s.new) result }
{
    let mut reader = Reader::open(node);
    reader.measure(s, by)?;
    reader.reach(place.saturating_add(HEAD));
    match put_part(&mut reader, s, by, config.size(), whole, raw) {
        Ok(()) => Ok(()),
        Err(Halt::Stopped(_)) => Ok(()),
        Err(Halt::Failed) => Err(Failed),
    }
}

/// Puts a part over the page.
fn put_part<S: Storage>(
    reader: &mut Reader,
    s: &mut S,
    by: NodeNo,
    size: u32,
    whole: bool,
    raw: &mut [u8],
) -> Result<(), Halt>
    requires by { IsIn (S.logs s.old) by }
    requires node { IsIn (S.logs s.old) reader.old.node }
    requires reads { (log : List ℕ) → IsLog (S.logs s.old) reader.old.node log → Reads reader.old log }
    requires least { 1 ≤ size }
    requires most { size ≤ 4096 }
    requires size { length raw.old ≡ size + 16 }
    ensures ok { OnOk result ((log : List ℕ) → IsLog (S.logs s.old) reader.old.node log → part_put (part_field size whole (left_of reader.old log)) raw.old ≡ Some raw.new) }
    ensures err { IfErr result (λ e. IfSome (halt_stop e) (λ t. (log : List ℕ) → IsLog (S.logs s.old) reader.old.node log → part_put (part_field size whole (left_of reader.old log)) raw.old ≡ None)) }
    ensures head { take 16 raw.new ≡ take 16 raw.old }
    ensures fixed { (reader.new.node ≡ reader.old.node) × (reader.new.end ≡ reader.old.end) }
    ensures kept { (S.pages s.new ≡ S.pages s.old) × (S.rooms s.new ≡ S.rooms s.old) × (S.stops s.new ≡ S.stops s.old) }
    ensures logs { S.logs s.new ≡ S.logs s.old }
    ensures calm { (l : List (Option ℕ)) → NoneFails (S.failing s.old) by l → NoneFails (S.failing s.new) by l }
    ensures quiet { (l : List (Option ℕ)) → NoneFails (S.failing s.old) by l → result ≢ Err Halt.Failed }
    ensures counts { (k : Kind) → S.faults s.old k ≤ S.faults s.new k }
    ensures cause { result ≡ Err Halt.Failed → Rose (S.faults s.old Call.Log) (S.faults s.new Call.Log) }
{
    if whole {
        reader.copy(s, by, &mut raw[BEFORE..])?;
        return Ok(());
    }
    let count = counted16(reader, s, by)?;
    put_ranges(reader, s, by, size, count, raw)
}

/// Puts changed ranges over the page.
fn put_ranges<S: Storage>(
    reader: &mut Reader,
    s: &mut S,
    by: NodeNo,
    size: u32,
    count: u16,
    raw: &mut [u8],
) -> Result<(), Halt>
    requires by { IsIn (S.logs s.old) by }
    requires node { IsIn (S.logs s.old) reader.old.node }
    requires reads { (log : List ℕ) → IsLog (S.logs s.old) reader.old.node log → Reads reader.old log }
    requires most { size ≤ 4096 }
    requires size { length raw.old ≡ size + 16 }
    ensures ok { OnOk result ((log : List ℕ) → IsLog (S.logs s.old) reader.old.node log → put_read (ranges_field size 0 count (left_of reader.old log)) raw.old ≡ Some raw.new) }
    ensures err { IfErr result (λ e. IfSome (halt_stop e) (λ t. (log : List ℕ) → IsLog (S.logs s.old) reader.old.node log → put_read (ranges_field size 0 count (left_of reader.old log)) raw.old ≡ None)) }
    ensures head { take 16 raw.new ≡ take 16 raw.old }
    ensures fixed { (reader.new.node ≡ reader.old.node) × (reader.new.end ≡ reader.old.end) }
    ensures kept { (S.pages s.new ≡ S.pages s.old) × (S.rooms s.new ≡ S.rooms s.old) × (S.stops s.new ≡ S.stops s.old) }
    ensures logs { S.logs s.new ≡ S.logs s.old }
    ensures calm { (l : List (Option ℕ)) → NoneFails (S.failing s.old) by l → NoneFails (S.failing s.new) by l }
    ensures quiet { (l : List (Option ℕ)) → NoneFails (S.failing s.old) by l → result ≢ Err Halt.Failed }
    ensures counts { (k : Kind) → S.faults s.old k ≤ S.faults s.new k }
    ensures cause { result ≡ Err Halt.Failed → Rose (S.faults s.old Call.Log) (S.faults s.new Call.Log) }
{
    let mut low = 0;
    for _ in 0..count {
        low = put_range(reader, s, by, size, low, raw)?;
    }
    Ok(())
}

/// Puts a changed range over the page that begins at `low` or later. Answers where the next may
/// begin.
fn put_range<S: Storage>(
    reader: &mut Reader,
    s: &mut S,
    by: NodeNo,
    size: u32,
    low: u32,
    raw: &mut [u8],
) -> Result<u32, Halt>
    requires by { IsIn (S.logs s.old) by }
    requires node { IsIn (S.logs s.old) reader.old.node }
    requires reads { (log : List ℕ) → IsLog (S.logs s.old) reader.old.node log → Reads reader.old log }
    requires most { size ≤ 4096 }
    requires size { length raw.old ≡ size + 16 }
    ensures ok { IfOk result (λ next. (log : List ℕ) → IsLog (S.logs s.old) reader.old.node log → (n : ℕ) → put_read (ranges_field size low (suc n) (left_of reader.old log)) raw.old ≡ put_read (ranges_field size next n (left_of reader.new log)) raw.new) }
    ensures within { IfOk result (λ next. next ≤ size + 1) }
    ensures err { IfErr result (λ e. IfSome (halt_stop e) (λ t. (log : List ℕ) → IsLog (S.logs s.old) reader.old.node log → (n : ℕ) → put_read (ranges_field size low (suc n) (left_of reader.old log)) raw.old ≡ None)) }
    ensures head { take 16 raw.new ≡ take 16 raw.old }
    ensures reads { OnOk result ((log : List ℕ) → IsLog (S.logs s.old) reader.old.node log → Reads reader.new log) }
    ensures limit { reader.new.limit ≡ reader.old.limit }
    ensures fixed { (reader.new.node ≡ reader.old.node) × (reader.new.end ≡ reader.old.end) }
    ensures kept { (S.pages s.new ≡ S.pages s.old) × (S.rooms s.new ≡ S.rooms s.old) × (S.stops s.new ≡ S.stops s.old) }
    ensures logs { S.logs s.new ≡ S.logs s.old }
    ensures calm { (l : List (Option ℕ)) → NoneFails (S.failing s.old) by l → NoneFails (S.failing s.new) by l }
    ensures quiet { (l : List (Option ℕ)) → NoneFails (S.failing s.old) by l → result ≢ Err Halt.Failed }
    ensures counts { (k : Kind) → S.faults s.old k ≤ S.faults s.new k }
    ensures cause { result ≡ Err Halt.Failed → Rose (S.faults s.old Call.Log) (S.faults s.new Call.Log) }
{
    let place = between16(reader, s, by, low, size)? as usize;
    let count = between16(reader, s, by, 1, size - place as u32)? as usize;
    let from = BEFORE + place;
    reader.copy(s, by, &mut raw[from..from + count])?;
    Ok((place + count + 1) as u32)
}
