ghost use Rattle.std.specs.Prelude.{◌≡◌, ◌≢◌, ℕ, suc, ◌+◌, ◌≤◌, ◌<◌, List, Option, Some, None, Ok, Err, OnOk, IfOk, IfErr, IfSome};
ghost use Rattle.pcl_base.specs.Faults.{Rose};
ghost use Rattle.pcl_base.specs.declared.trace.Call.{Call as Kind};
ghost use Rattle.disk_model.specs.Disk.{IsIn};
ghost use Rattle.text_rules.specs.LogRecord.{ranges_field, part_field};
ghost use Rattle.redo_log.specs.Told.{IsLog, NoneFails};
ghost use Rattle.redo_log.specs.Walks.{Reads, left_of, rest_of};
ghost use Rattle.redo_log.specs.Halting.{halt_stop};

use crate::numbers::{between16, counted16};
use crate::reader::{Halt, Reader};
use disk_model::{Call, Storage};
use pcl_base::NodeNo;

/// Passes over a changed range that begins at `low` or later. Answers where the next may begin.
fn pass_range<S: Storage>(
    reader: &mut Reader,
    s: &mut S,
    by: NodeNo,
    size: u32,
    low: u32,
) -> Result<u32, Halt>
    requires by { IsIn (S.logs s.old) by }
    requires node { IsIn (S.logs s.old) reader.old.node }
    requires reads { (log : List ℕ) → IsLog (S.logs s.old) reader.old.node log → Reads reader.old log }
    requires size { size ≤ 4096 }
    ensures ok { IfOk result (λ next. (log : List ℕ) → IsLog (S.logs s.old) reader.old.node log → (n : ℕ) → rest_of (ranges_field size low (suc n) (left_of reader.old log)) ≡ rest_of (ranges_field size next n (left_of reader.new log))) }
    ensures within { IfOk result (λ next. next ≤ size + 1) }
    ensures err { IfErr result (λ e. IfSome (halt_stop e) (λ t. (log : List ℕ) → IsLog (S.logs s.old) reader.old.node log → (n : ℕ) → rest_of (ranges_field size low (suc n) (left_of reader.old log)) ≡ None)) }
    ensures reads { OnOk result ((log : List ℕ) → IsLog (S.logs s.old) reader.old.node log → Reads reader.new log) }
    ensures limit { reader.new.limit ≡ reader.old.limit }
    ensures fixed { (reader.new.node ≡ reader.old.node) × (reader.new.end ≡ reader.old.end) }
    ensures kept { (S.pages s.new ≡ S.pages s.old) × (S.rooms s.new ≡ S.rooms s.old) × (S.stops s.new ≡ S.stops s.old) }
    ensures logs { S.logs s.new ≡ S.logs s.old }
    ensures calm { (l : List (Option ℕ)) → NoneFails (S.failing s.old) by l → NoneFails (S.failing s.new) by l }
    ensures quiet { (l : List (Option ℕ)) → NoneFails (S.failing s.old) by l → result ≢ Err Halt.Failed }
    ensures counts { (k : Kind) → S.faults s.old k ≤ S.faults s.new k }
    ensures cause { result ≡ Err Halt.Failed → Rose (S.faults s.old Call.Log) (S.faults s.new Call.Log) }
{
    let place = between16(reader, s, by, low, size)? as u32;
    let count = between16(reader, s, by, 1, size - place)?;
    reader.skip(count as u64)?;
    Ok(place + count as u32 + 1)
}

/// Passes over changed ranges, rising and apart from one another.
fn pass_ranges<S: Storage>(
    reader: &mut Reader,
    s: &mut S,
    by: NodeNo,
    size: u32,
    count: u16,
) -> Result<(), Halt>
    requires by { IsIn (S.logs s.old) by }
    requires node { IsIn (S.logs s.old) reader.old.node }
    requires reads { (log : List ℕ) → IsLog (S.logs s.old) reader.old.node log → Reads reader.old log }
    requires size { size ≤ 4096 }
    ensures ok { OnOk result ((log : List ℕ) → IsLog (S.logs s.old) reader.old.node log → rest_of (ranges_field size 0 count (left_of reader.old log)) ≡ Some (left_of reader.new log)) }
    ensures err { IfErr result (λ e. IfSome (halt_stop e) (λ t. (log : List ℕ) → IsLog (S.logs s.old) reader.old.node log → rest_of (ranges_field size 0 count (left_of reader.old log)) ≡ None)) }
    ensures reads { OnOk result ((log : List ℕ) → IsLog (S.logs s.old) reader.old.node log → Reads reader.new log) }
    ensures limit { reader.new.limit ≡ reader.old.limit }
    ensures fixed { (reader.new.node ≡ reader.old.node) × (reader.new.end ≡ reader.old.end) }
    ensures kept { (S.pages s.new ≡ S.pages s.old) × (S.rooms s.new ≡ S.rooms s.old) × (S.stops s.new ≡ S.stops s.old) }
    ensures logs { S.logs s.new ≡ S.logs s.old }
    ensures calm { (l : List (Option ℕ)) → NoneFails (S.failing s.old) by l → NoneFails (S.failing s.new) by l }
    ensures quiet { (l : List (Option ℕ)) → NoneFails (S.failing s.old) by l → result ≢ Err Halt.Failed }
    ensures counts { (k : Kind) → S.faults s.old k ≤ S.faults s.new k }
    ensures cause { result ≡ Err Halt.Failed → Rose (S.faults s.old Call.Log) (S.faults s.new Call.Log) }
{
    let mut low = 0;
    for _ in 0..count {
        low = pass_range(reader, s, by, size, low)?;
    }
    Ok(())
}

/// Passes over a whole page or its changed ranges.
pub(crate) fn pass_part<S: Storage>(
    reader: &mut Reader,
    s: &mut S,
    by: NodeNo,
    size: u32,
    whole: bool,
) -> Result<(), Halt>
    requires by { IsIn (S.logs s.old) by }
    requires node { IsIn (S.logs s.old) reader.old.node }
    requires reads { (log : List ℕ) → IsLog (S.logs s.old) reader.old.node log → Reads reader.old log }
    requires size { size ≤ 4096 }
    ensures ok { OnOk result ((log : List ℕ) → IsLog (S.logs s.old) reader.old.node log → rest_of (part_field size whole (left_of reader.old log)) ≡ Some (left_of reader.new log)) }
    ensures err { IfErr result (λ e. IfSome (halt_stop e) (λ t. (log : List ℕ) → IsLog (S.logs s.old) reader.old.node log → rest_of (part_field size whole (left_of reader.old log)) ≡ None)) }
    ensures reads { OnOk result ((log : List ℕ) → IsLog (S.logs s.old) reader.old.node log → Reads reader.new log) }
    ensures limit { reader.new.limit ≡ reader.old.limit }
    ensures fixed { (reader.new.node ≡ reader.old.node) × (reader.new.end ≡ reader.old.end) }
    ensures kept { (S.pages s.new ≡ S.pages s.old) × (S.rooms s.new ≡ S.rooms s.old) × (S.stops s.new ≡ S.stops s.old) }
    ensures logs { S.logs s.new ≡ S.logs s.old }
    ensures calm { (l : List (Option ℕ)) → NoneFails (S.failing s.old) by l → NoneFails (S.failing s.new) by l }
    ensures quiet { (l : List (Option ℕ)) → NoneFails (S.failing s.old) by l → result ≢ Err Halt.Failed }
    ensures counts { (k : Kind) → S.faults s.old k ≤ S.faults s.new k }
    ensures cause { result ≡ Err Halt.Failed → Rose (S.faults s.old Call.Log) (S.faults s.new Call.Log) }
{
    if whole {
        return reader.skip(size as u64);
    }
    let count = counted16(reader, s, by)?;
    pass_ranges(reader, s, by, size, count)
}
