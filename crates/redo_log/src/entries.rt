ghost use Rattle.std.specs.Prelude.{◌≡◌, ◌≢◌, ℕ, suc, ◌+◌, ◌≤◌, ◌<◌, List, [], slice_range, Option, Some, None, Ok, Err, OnOk, IfOk, IfErr, IfSome};
ghost use Rattle.pcl_base.specs.Faults.{Rose};
ghost use Rattle.pcl_base.specs.declared.trace.Call.{Call as Kind};
ghost use Rattle.disk_model.specs.Disk.{IsIn};
ghost use Rattle.text_rules.specs.FieldBytes.{after, give, before_rest, whole};
ghost use Rattle.text_rules.specs.LogRecord.{changes_field, body_field, record_field};
ghost use Rattle.redo_log.specs.Told.{IsLog, NoneFails};
ghost use Rattle.redo_log.specs.Walks.{Reads, left_of, rest_of, changes_in};
ghost use Rattle.redo_log.specs.Halting.{halt_stop};
ghost use Rattle.redo_log.specs.Heads.{head_field, IsEntry};

use crate::numbers::{between32, counted32, counted64, mark, number32};
use crate::parts::pass_part;
use crate::reader::{Halt, Reader};
use crate::reading::node_of;
use disk_model::{Call, Storage};
use pcl_base::{Config, NodeNo, PageNo, TxId, Version};

/// The head of an entry.
#[derive(Clone, Copy, Debug)]
pub(crate) struct Head {
    pub(crate) page: PageNo,
    pub(crate) version: Version,
}

/// What stands before the entries of a record: its transaction, whether it is of format 1, and
/// the number of its entries.
#[derive(Clone, Copy, Debug)]
pub(crate) struct Opening {
    pub(crate) tx: TxId,
    pub(crate) whole: bool,
    pub(crate) count: u32,
}

/// The page and the version of an entry.
pub(crate) fn read_head<S: Storage>(
    reader: &mut Reader,
    s: &mut S,
    by: NodeNo,
    config: &Config,
    low: u32,
) -> Result<Head, Halt>
    requires by { IsIn (S.logs s.old) by }
    requires node { IsIn (S.logs s.old) reader.old.node }
    requires reads { (log : List ℕ) → IsLog (S.logs s.old) reader.old.node log → Reads reader.old log }
    ensures ok { IfOk result (λ h. (log : List ℕ) → IsLog (S.logs s.old) reader.old.node log → head_field config.now low (left_of reader.old log) ≡ Ok (h, left_of reader.new log)) }
    ensures within { IfOk result (λ h. h.page < config.now.pages) }
    ensures few { IfOk result (λ h. h.page < 65536) }
    ensures err { IfErr result (λ e. IfSome (halt_stop e) (λ t. (log : List ℕ) → IsLog (S.logs s.old) reader.old.node log → head_field config.now low (left_of reader.old log) ≡ Err t)) }
    ensures place { OnOk result (reader.new.place ≡ reader.old.place + 12) }
    ensures reads { OnOk result ((log : List ℕ) → IsLog (S.logs s.old) reader.old.node log → Reads reader.new log) }
    ensures limit { reader.new.limit ≡ reader.old.limit }
    ensures fixed { (reader.new.node ≡ reader.old.node) × (reader.new.end ≡ reader.old.end) }
    ensures kept { (S.pages s.new ≡ S.pages s.old) × (S.rooms s.new ≡ S.rooms s.old) × (S.stops s.new ≡ S.stops s.old) }
    ensures logs { S.logs s.new ≡ S.logs s.old }
    ensures calm { (l : List (Option ℕ)) → NoneFails (S.failing s.old) by l → NoneFails (S.failing s.new) by l }
    ensures quiet { (l : List (Option ℕ)) → NoneFails (S.failing s.old) by l → result ≢ Err Halt.Failed }
    ensures counts { (k : Kind) → S.faults s.old k ≤ S.faults s.new k }
    ensures cause { result ≡ Err Halt.Failed → Rose (S.faults s.old Call.Log) (S.faults s.new Call.Log) }
{
    let page = between32(reader, s, by, low, config.pages() - 1)?;
    let version = counted64(reader, s, by)?;
    Ok(Head { page, version })
}

/// Passes over entries, rising by page.
fn pass_entries<S: Storage>(
    reader: &mut Reader,
    s: &mut S,
    by: NodeNo,
    config: &Config,
    whole: bool,
    count: u32,
) -> Result<(), Halt>
    requires by { IsIn (S.logs s.old) by }
    requires node { IsIn (S.logs s.old) reader.old.node }
    requires reads { (log : List ℕ) → IsLog (S.logs s.old) reader.old.node log → Reads reader.old log }
    ensures ok { OnOk result ((log : List ℕ) → IsLog (S.logs s.old) reader.old.node log → rest_of (changes_field config.now whole 0 count (left_of reader.old log)) ≡ Some (left_of reader.new log)) }
    ensures err { IfErr result (λ e. IfSome (halt_stop e) (λ t. (log : List ℕ) → IsLog (S.logs s.old) reader.old.node log → rest_of (changes_field config.now whole 0 count (left_of reader.old log)) ≡ None)) }
    ensures reads { OnOk result ((log : List ℕ) → IsLog (S.logs s.old) reader.old.node log → Reads reader.new log) }
    ensures limit { reader.new.limit ≡ reader.old.limit }
    ensures fixed { (reader.new.node ≡ reader.old.node) × (reader.new.end ≡ reader.old.end) }
    ensures kept { (S.pages s.new ≡ S.pages s.old) × (S.rooms s.new ≡ S.rooms s.old) × (S.stops s.new ≡ S.stops s.old) }
    ensures logs { S.logs s.new ≡ S.logs s.old }
    ensures calm { (l : List (Option ℕ)) → NoneFails (S.failing s.old) by l → NoneFails (S.failing s.new) by l }
    ensures quiet { (l : List (Option ℕ)) → NoneFails (S.failing s.old) by l → result ≢ Err Halt.Failed }
    ensures counts { (k : Kind) → S.faults s.old k ≤ S.faults s.new k }
    ensures cause { result ≡ Err Halt.Failed → Rose (S.faults s.old Call.Log) (S.faults s.new Call.Log) }
{
    let mut low = 0;
    for _ in 0..count {
        let head = read_entry(reader, s, by, config, whole, low)?;
        low = head.page + 1;
    }
    Ok(())
}

/// The head of an entry that is numbered `low` or higher. Its part is passed over.
pub(crate) fn read_entry<S: Storage>(
    reader: &mut Reader,
    s: &mut S,
    by: NodeNo,
    config: &Config,
    whole: bool,
    low: u32,
) -> Result<Head, Halt>
    requires by { IsIn (S.logs s.old) by }
    requires node { IsIn (S.logs s.old) reader.old.node }
    requires reads { (log : List ℕ) → IsLog (S.logs s.old) reader.old.node log → Reads reader.old log }
    ensures entry { IfOk result (λ h. (log : List ℕ) → IsLog (S.logs s.old) reader.old.node log → IsEntry config.now whole low (left_of reader.old log) h (left_of reader.new log)) }
    ensures ok { IfOk result (λ h. (log : List ℕ) → IsLog (S.logs s.old) reader.old.node log → (n : ℕ) → rest_of (changes_field config.now whole low (suc n) (left_of reader.old log)) ≡ rest_of (changes_field config.now whole (h.page + 1) n (left_of reader.new log))) }
    ensures within { IfOk result (λ h. h.page < config.now.pages) }
    ensures few { IfOk result (λ h. h.page < 65536) }
    ensures err { IfErr result (λ e. IfSome (halt_stop e) (λ t. (log : List ℕ) → IsLog (S.logs s.old) reader.old.node log → (n : ℕ) → rest_of (changes_field config.now whole low (suc n) (left_of reader.old log)) ≡ None)) }
    ensures reads { OnOk result ((log : List ℕ) → IsLog (S.logs s.old) reader.old.node log → Reads reader.new log) }
    ensures limit { reader.new.limit ≡ reader.old.limit }
    ensures fixed { (reader.new.node ≡ reader.old.node) × (reader.new.end ≡ reader.old.end) }
    ensures kept { (S.pages s.new ≡ S.pages s.old) × (S.rooms s.new ≡ S.rooms s.old) × (S.stops s.new ≡ S.stops s.old) }
    ensures logs { S.logs s.new ≡ S.logs s.old }
    ensures calm { (l : List (Option ℕ)) → NoneFails (S.failing s.old) by l → NoneFails (S.failing s.new) by l }
    ensures quiet { (l : List (Option ℕ)) → NoneFails (S.failing s.old) by l → result ≢ Err Halt.Failed }
    ensures counts { (k : Kind) → S.faults s.old k ≤ S.faults s.new k }
    ensures cause { result ≡ Err Halt.Failed → Rose (S.faults s.old Call.Log) (S.faults s.new Call.Log) }
{
    let head = read_head(reader, s, by, config, low)?;
    pass_part(reader, s, by, config.size(), whole)?;
    Ok(head)
}

/// What stands before the entries of a record, behind its length.
fn read_body<S: Storage>(
    reader: &mut Reader,
    s: &mut S,
    by: NodeNo,
    config: &Config,
) -> Result<Opening, Halt>
    requires by { IsIn (S.logs s.old) by }
    requires node { IsIn (S.logs s.old) reader.old.node }
    requires reads { (log : List ℕ) → IsLog (S.logs s.old) reader.old.node log → Reads reader.old log }
    ensures ok { IfOk result (λ o. (log : List ℕ) → IsLog (S.logs s.old) reader.old.node log → body_field config.now (left_of reader.old log) ≡ after (changes_field config.now o.whole 0 o.count (left_of reader.new log)) (λ xs. give (record { tx = o.tx; changes = xs }))) }
    ensures err { IfErr result (λ e. IfSome (halt_stop e) (λ t. (log : List ℕ) → IsLog (S.logs s.old) reader.old.node log → body_field config.now (left_of reader.old log) ≡ Err t)) }
    ensures some { IfOk result (λ o. 1 ≤ o.count) }
    ensures place { OnOk result (reader.new.place ≡ reader.old.place + 13) }
    ensures reads { OnOk result ((log : List ℕ) → IsLog (S.logs s.old) reader.old.node log → Reads reader.new log) }
    ensures limit { reader.new.limit ≡ reader.old.limit }
    ensures fixed { (reader.new.node ≡ reader.old.node) × (reader.new.end ≡ reader.old.end) }
    ensures kept { (S.pages s.new ≡ S.pages s.old) × (S.rooms s.new ≡ S.rooms s.old) × (S.stops s.new ≡ S.stops s.old) }
    ensures logs { S.logs s.new ≡ S.logs s.old }
    ensures calm { (l : List (Option ℕ)) → NoneFails (S.failing s.old) by l → NoneFails (S.failing s.new) by l }
    ensures quiet { (l : List (Option ℕ)) → NoneFails (S.failing s.old) by l → result ≢ Err Halt.Failed }
    ensures counts { (k : Kind) → S.faults s.old k ≤ S.faults s.new k }
    ensures cause { result ≡ Err Halt.Failed → Rose (S.faults s.old Call.Log) (S.faults s.new Call.Log) }
{
    let mark = mark(reader, s, by, config.nodes() as u8)?;
    let born = counted32(reader, s, by)?;
    let serial = counted32(reader, s, by)?;
    let count = counted32(reader, s, by)?;
    let tx = TxId {
        node: node_of(mark),
        born,
        serial,
    };
    Ok(Opening {
        tx,
        whole: mark < 128,
        count,
    })
}

/// What stands before the entries of the record at the reader's place. The reader then reads no
/// further than the record.
fn read_opening<S: Storage>(
    reader: &mut Reader,
    s: &mut S,
    by: NodeNo,
    config: &Config,
) -> Result<Opening, Halt>
    requires by { IsIn (S.logs s.old) by }
    requires node { IsIn (S.logs s.old) reader.old.node }
    requires reads { (log : List ℕ) → IsLog (S.logs s.old) reader.old.node log → Reads reader.old log }
    ensures ok { IfOk result (λ o. (log : List ℕ) → IsLog (S.logs s.old) reader.old.node log → record_field config.now (left_of reader.old log) ≡ before_rest (slice_range log reader.new.limit reader.old.limit) (whole (after (changes_field config.now o.whole 0 o.count (left_of reader.new log)) (λ xs. give (record { tx = o.tx; changes = xs }))))) }
    ensures err { IfErr result (λ e. IfSome (halt_stop e) (λ t. (log : List ℕ) → IsLog (S.logs s.old) reader.old.node log → record_field config.now (left_of reader.old log) ≡ Err t)) }
    ensures some { IfOk result (λ o. 1 ≤ o.count) }
    ensures place { OnOk result (reader.new.place ≡ reader.old.place + 17) }
    ensures limit { OnOk result (reader.new.limit ≤ reader.old.limit) }
    ensures reads { OnOk result ((log : List ℕ) → IsLog (S.logs s.old) reader.old.node log → Reads reader.new log) }
    ensures fixed { (reader.new.node ≡ reader.old.node) × (reader.new.end ≡ reader.old.end) }
    ensures kept { (S.pages s.new ≡ S.pages s.old) × (S.rooms s.new ≡ S.rooms s.old) × (S.stops s.new ≡ S.stops s.old) }
    ensures logs { S.logs s.new ≡ S.logs s.old }
    ensures calm { (l : List (Option ℕ)) → NoneFails (S.failing s.old) by l → NoneFails (S.failing s.new) by l }
    ensures quiet { (l : List (Option ℕ)) → NoneFails (S.failing s.old) by l → result ≢ Err Halt.Failed }
    ensures counts { (k : Kind) → S.faults s.old k ≤ S.faults s.new k }
    ensures cause { result ≡ Err Halt.Failed → Rose (S.faults s.old Call.Log) (S.faults s.new Call.Log) }
{
    let length = number32(reader, s, by)?;
    reader.narrow(length.saturating_sub(4) as u64)?;
    read_body(reader, s, by, config)
}

/// Passes over a record and goes back to its first entry. Now it is known to be whole.
pub(crate) fn pass_record<S: Storage>(
    reader: &mut Reader,
    s: &mut S,
    by: NodeNo,
    config: &Config,
) -> Result<Opening, Halt>
    requires by { IsIn (S.logs s.old) by }
    requires node { IsIn (S.logs s.old) reader.old.node }
    requires reads { (log : List ℕ) → IsLog (S.logs s.old) reader.old.node log → Reads reader.old log }
    ensures ok { IfOk result (λ o. (log : List ℕ) → IsLog (S.logs s.old) reader.old.node log → record_field config.now (left_of reader.old log) ≡ Ok (record { tx = o.tx; changes = changes_in (changes_field config.now o.whole 0 o.count (left_of reader.new log)) }, slice_range log reader.new.limit reader.old.limit)) }
    ensures entries { IfOk result (λ o. (log : List ℕ) → IsLog (S.logs s.old) reader.old.node log → rest_of (changes_field config.now o.whole 0 o.count (left_of reader.new log)) ≡ Some []) }
    ensures err { IfErr result (λ e. IfSome (halt_stop e) (λ t. (log : List ℕ) → IsLog (S.logs s.old) reader.old.node log → rest_of (record_field config.now (left_of reader.old log)) ≡ None)) }
    ensures some { IfOk result (λ o. 1 ≤ o.count) }
    ensures place { OnOk result (reader.new.place ≡ reader.old.place + 17) }
    ensures within { OnOk result (reader.new.place ≤ reader.new.limit) }
    ensures limit { OnOk result (reader.new.limit ≤ reader.old.limit) }
    ensures reads { OnOk result ((log : List ℕ) → IsLog (S.logs s.old) reader.old.node log → Reads reader.new log) }
    ensures fixed { (reader.new.node ≡ reader.old.node) × (reader.new.end ≡ reader.old.end) }
    ensures kept { (S.pages s.new ≡ S.pages s.old) × (S.rooms s.new ≡ S.rooms s.old) × (S.stops s.new ≡ S.stops s.old) }
    ensures logs { S.logs s.new ≡ S.logs s.old }
    ensures calm { (l : List (Option ℕ)) → NoneFails (S.failing s.old) by l → NoneFails (S.failing s.new) by l }
    ensures quiet { (l : List (Option ℕ)) → NoneFails (S.failing s.old) by l → result ≢ Err Halt.Failed }
    ensures counts { (k : Kind) → S.faults s.old k ≤ S.faults s.new k }
    ensures cause { result ≡ Err Halt.Failed → Rose (S.faults s.old Call.Log) (S.faults s.new Call.Log) }
{
    let opening = read_opening(reader, s, by, config)?;
    let start = reader.place();
    pass_entries(reader, s, by, config, opening.whole, opening.count)?;
    reader.at_limit()?;
    reader.go_to(start);
    Ok(opening)
}
