ghost use Rattle.std.specs.Prelude.{◌≡◌, ◌≢◌, ℕ, ◌+◌, ◌≤◌, List, Option, Ok, Err, OnOk, IfOk, IfErr, IfSome};
ghost use Rattle.std.specs.Int.{w8, w16, w32, w64};
ghost use Rattle.pcl_base.specs.Faults.{Rose};
ghost use Rattle.pcl_base.specs.declared.trace.Call.{Call as Kind};
ghost use Rattle.disk_model.specs.Disk.{IsIn};
ghost use Rattle.text_rules.specs.FieldBytes.{BadField as bad_field, number, at_least, number_from, allowed};
ghost use Rattle.text_rules.specs.LogRecord.{is_mark};
ghost use Rattle.redo_log.specs.Told.{IsLog, NoneFails};
ghost use Rattle.redo_log.specs.Walks.{Reads, left_of};
ghost use Rattle.redo_log.specs.Halting.{halt_stop};

use crate::fields::Fault;
use crate::reader::{Halt, Reader};
use disk_model::{Call, Storage};
use pcl_base::NodeNo;

/// The byte that tells node and format.
pub(crate) fn mark<S: Storage>(
    reader: &mut Reader,
    s: &mut S,
    by: NodeNo,
    nodes: u8,
) -> Result<u8, Halt>
    requires by { IsIn (S.logs s.old) by }
    requires node { IsIn (S.logs s.old) reader.old.node }
    requires reads { (log : List ℕ) → IsLog (S.logs s.old) reader.old.node log → Reads reader.old log }
    requires nodes { nodes ≤ 16 }
    ensures ok { IfOk result (λ n. (log : List ℕ) → IsLog (S.logs s.old) reader.old.node log → allowed bad_field (is_mark nodes) (number w8) (left_of reader.old log) ≡ Ok (n, left_of reader.new log)) }
    ensures err { IfErr result (λ e. IfSome (halt_stop e) (λ t. (log : List ℕ) → IsLog (S.logs s.old) reader.old.node log → allowed bad_field (is_mark nodes) (number w8) (left_of reader.old log) ≡ Err t)) }
    ensures place { OnOk result (reader.new.place ≡ reader.old.place + 1) }
    ensures reads { OnOk result ((log : List ℕ) → IsLog (S.logs s.old) reader.old.node log → Reads reader.new log) }
    ensures limit { reader.new.limit ≡ reader.old.limit }
    ensures fixed { (reader.new.node ≡ reader.old.node) × (reader.new.end ≡ reader.old.end) }
    ensures kept { (S.pages s.new ≡ S.pages s.old) × (S.rooms s.new ≡ S.rooms s.old) × (S.stops s.new ≡ S.stops s.old) }
    ensures logs { S.logs s.new ≡ S.logs s.old }
    ensures calm { (l : List (Option ℕ)) → NoneFails (S.failing s.old) by l → NoneFails (S.failing s.new) by l }
    ensures quiet { (l : List (Option ℕ)) → NoneFails (S.failing s.old) by l → result ≢ Err Halt.Failed }
    ensures counts { (k : Kind) → S.faults s.old k ≤ S.faults s.new k }
    ensures cause { result ≡ Err Halt.Failed → Rose (S.faults s.old Call.Log) (S.faults s.new Call.Log) }
{
    let fault = reader.stop(Fault::BadField);
    let front = reader.bytes::<1, S>(s, by)?;
    let number = front[0];
    if number < nodes || (128 <= number && number < 128 + nodes) {
        return Ok(number);
    }
    Err(fault)
}

/// A number of two bytes within two limits.
pub(crate) fn between16<S: Storage>(
    reader: &mut Reader,
    s: &mut S,
    by: NodeNo,
    low: u32,
    high: u32,
) -> Result<u16, Halt>
    requires by { IsIn (S.logs s.old) by }
    requires node { IsIn (S.logs s.old) reader.old.node }
    requires reads { (log : List ℕ) → IsLog (S.logs s.old) reader.old.node log → Reads reader.old log }
    ensures ok { IfOk result (λ n. (log : List ℕ) → IsLog (S.logs s.old) reader.old.node log → number_from low high w16 (left_of reader.old log) ≡ Ok (n, left_of reader.new log)) }
    ensures within { IfOk result (λ n. (low ≤ n) × (n ≤ high)) }
    ensures err { IfErr result (λ e. IfSome (halt_stop e) (λ t. (log : List ℕ) → IsLog (S.logs s.old) reader.old.node log → number_from low high w16 (left_of reader.old log) ≡ Err t)) }
    ensures place { OnOk result (reader.new.place ≡ reader.old.place + 2) }
    ensures reads { OnOk result ((log : List ℕ) → IsLog (S.logs s.old) reader.old.node log → Reads reader.new log) }
    ensures limit { reader.new.limit ≡ reader.old.limit }
    ensures fixed { (reader.new.node ≡ reader.old.node) × (reader.new.end ≡ reader.old.end) }
    ensures kept { (S.pages s.new ≡ S.pages s.old) × (S.rooms s.new ≡ S.rooms s.old) × (S.stops s.new ≡ S.stops s.old) }
    ensures logs { S.logs s.new ≡ S.logs s.old }
    ensures calm { (l : List (Option ℕ)) → NoneFails (S.failing s.old) by l → NoneFails (S.failing s.new) by l }
    ensures quiet { (l : List (Option ℕ)) → NoneFails (S.failing s.old) by l → result ≢ Err Halt.Failed }
    ensures counts { (k : Kind) → S.faults s.old k ≤ S.faults s.new k }
    ensures cause { result ≡ Err Halt.Failed → Rose (S.faults s.old Call.Log) (S.faults s.new Call.Log) }
{
    let fault = reader.stop(Fault::BadField);
    let number = u16::from_be_bytes(reader.bytes::<2, S>(s, by)?);
    if (number as u32) < low || high < number as u32 {
        return Err(fault);
    }
    Ok(number)
}

/// A number of two bytes, at least 1.
pub(crate) fn counted16<S: Storage>(reader: &mut Reader, s: &mut S, by: NodeNo) -> Result<u16, Halt>
    requires by { IsIn (S.logs s.old) by }
    requires node { IsIn (S.logs s.old) reader.old.node }
    requires reads { (log : List ℕ) → IsLog (S.logs s.old) reader.old.node log → Reads reader.old log }
    ensures ok { IfOk result (λ n. (log : List ℕ) → IsLog (S.logs s.old) reader.old.node log → at_least 1 w16 (left_of reader.old log) ≡ Ok (n, left_of reader.new log)) }
    ensures err { IfErr result (λ e. IfSome (halt_stop e) (λ t. (log : List ℕ) → IsLog (S.logs s.old) reader.old.node log → at_least 1 w16 (left_of reader.old log) ≡ Err t)) }
    ensures place { OnOk result (reader.new.place ≡ reader.old.place + 2) }
    ensures reads { OnOk result ((log : List ℕ) → IsLog (S.logs s.old) reader.old.node log → Reads reader.new log) }
    ensures limit { reader.new.limit ≡ reader.old.limit }
    ensures fixed { (reader.new.node ≡ reader.old.node) × (reader.new.end ≡ reader.old.end) }
    ensures kept { (S.pages s.new ≡ S.pages s.old) × (S.rooms s.new ≡ S.rooms s.old) × (S.stops s.new ≡ S.stops s.old) }
    ensures logs { S.logs s.new ≡ S.logs s.old }
    ensures calm { (l : List (Option ℕ)) → NoneFails (S.failing s.old) by l → NoneFails (S.failing s.new) by l }
    ensures quiet { (l : List (Option ℕ)) → NoneFails (S.failing s.old) by l → result ≢ Err Halt.Failed }
    ensures counts { (k : Kind) → S.faults s.old k ≤ S.faults s.new k }
    ensures cause { result ≡ Err Halt.Failed → Rose (S.faults s.old Call.Log) (S.faults s.new Call.Log) }
{
    let fault = reader.stop(Fault::BadField);
    let number = u16::from_be_bytes(reader.bytes::<2, S>(s, by)?);
    if number < 1 {
        return Err(fault);
    }
    Ok(number)
}

/// A number of four bytes.
pub(crate) fn number32<S: Storage>(reader: &mut Reader, s: &mut S, by: NodeNo) -> Result<u32, Halt>
    requires by { IsIn (S.logs s.old) by }
    requires node { IsIn (S.logs s.old) reader.old.node }
    requires reads { (log : List ℕ) → IsLog (S.logs s.old) reader.old.node log → Reads reader.old log }
    ensures ok { IfOk result (λ n. (log : List ℕ) → IsLog (S.logs s.old) reader.old.node log → number w32 (left_of reader.old log) ≡ Ok (n, left_of reader.new log)) }
    ensures err { IfErr result (λ e. IfSome (halt_stop e) (λ t. (log : List ℕ) → IsLog (S.logs s.old) reader.old.node log → number w32 (left_of reader.old log) ≡ Err t)) }
    ensures place { OnOk result (reader.new.place ≡ reader.old.place + 4) }
    ensures reads { OnOk result ((log : List ℕ) → IsLog (S.logs s.old) reader.old.node log → Reads reader.new log) }
    ensures limit { reader.new.limit ≡ reader.old.limit }
    ensures fixed { (reader.new.node ≡ reader.old.node) × (reader.new.end ≡ reader.old.end) }
    ensures kept { (S.pages s.new ≡ S.pages s.old) × (S.rooms s.new ≡ S.rooms s.old) × (S.stops s.new ≡ S.stops s.old) }
    ensures logs { S.logs s.new ≡ S.logs s.old }
    ensures calm { (l : List (Option ℕ)) → NoneFails (S.failing s.old) by l → NoneFails (S.failing s.new) by l }
    ensures quiet { (l : List (Option ℕ)) → NoneFails (S.failing s.old) by l → result ≢ Err Halt.Failed }
    ensures counts { (k : Kind) → S.faults s.old k ≤ S.faults s.new k }
    ensures cause { result ≡ Err Halt.Failed → Rose (S.faults s.old Call.Log) (S.faults s.new Call.Log) }
{
    Ok(u32::from_be_bytes(reader.bytes::<4, S>(s, by)?))
}

/// A number of four bytes within two limits.
pub(crate) fn between32<S: Storage>(
    reader: &mut Reader,
    s: &mut S,
    by: NodeNo,
    low: u32,
    high: u32,
) -> Result<u32, Halt>
    requires by { IsIn (S.logs s.old) by }
    requires node { IsIn (S.logs s.old) reader.old.node }
    requires reads { (log : List ℕ) → IsLog (S.logs s.old) reader.old.node log → Reads reader.old log }
    ensures ok { IfOk result (λ n. (log : List ℕ) → IsLog (S.logs s.old) reader.old.node log → number_from low high w32 (left_of reader.old log) ≡ Ok (n, left_of reader.new log)) }
    ensures within { IfOk result (λ n. (low ≤ n) × (n ≤ high)) }
    ensures err { IfErr result (λ e. IfSome (halt_stop e) (λ t. (log : List ℕ) → IsLog (S.logs s.old) reader.old.node log → number_from low high w32 (left_of reader.old log) ≡ Err t)) }
    ensures place { OnOk result (reader.new.place ≡ reader.old.place + 4) }
    ensures reads { OnOk result ((log : List ℕ) → IsLog (S.logs s.old) reader.old.node log → Reads reader.new log) }
    ensures limit { reader.new.limit ≡ reader.old.limit }
    ensures fixed { (reader.new.node ≡ reader.old.node) × (reader.new.end ≡ reader.old.end) }
    ensures kept { (S.pages s.new ≡ S.pages s.old) × (S.rooms s.new ≡ S.rooms s.old) × (S.stops s.new ≡ S.stops s.old) }
    ensures logs { S.logs s.new ≡ S.logs s.old }
    ensures calm { (l : List (Option ℕ)) → NoneFails (S.failing s.old) by l → NoneFails (S.failing s.new) by l }
    ensures quiet { (l : List (Option ℕ)) → NoneFails (S.failing s.old) by l → result ≢ Err Halt.Failed }
    ensures counts { (k : Kind) → S.faults s.old k ≤ S.faults s.new k }
    ensures cause { result ≡ Err Halt.Failed → Rose (S.faults s.old Call.Log) (S.faults s.new Call.Log) }
{
    let fault = reader.stop(Fault::BadField);
    let number = u32::from_be_bytes(reader.bytes::<4, S>(s, by)?);
    if number < low || high < number {
        return Err(fault);
    }
    Ok(number)
}

/// A number of four bytes, at least 1.
pub(crate) fn counted32<S: Storage>(reader: &mut Reader, s: &mut S, by: NodeNo) -> Result<u32, Halt>
    requires by { IsIn (S.logs s.old) by }
    requires node { IsIn (S.logs s.old) reader.old.node }
    requires reads { (log : List ℕ) → IsLog (S.logs s.old) reader.old.node log → Reads reader.old log }
    ensures ok { IfOk result (λ n. (log : List ℕ) → IsLog (S.logs s.old) reader.old.node log → at_least 1 w32 (left_of reader.old log) ≡ Ok (n, left_of reader.new log)) }
    ensures some { IfOk result (λ n. 1 ≤ n) }
    ensures err { IfErr result (λ e. IfSome (halt_stop e) (λ t. (log : List ℕ) → IsLog (S.logs s.old) reader.old.node log → at_least 1 w32 (left_of reader.old log) ≡ Err t)) }
    ensures place { OnOk result (reader.new.place ≡ reader.old.place + 4) }
    ensures reads { OnOk result ((log : List ℕ) → IsLog (S.logs s.old) reader.old.node log → Reads reader.new log) }
    ensures limit { reader.new.limit ≡ reader.old.limit }
    ensures fixed { (reader.new.node ≡ reader.old.node) × (reader.new.end ≡ reader.old.end) }
    ensures kept { (S.pages s.new ≡ S.pages s.old) × (S.rooms s.new ≡ S.rooms s.old) × (S.stops s.new ≡ S.stops s.old) }
    ensures logs { S.logs s.new ≡ S.logs s.old }
    ensures calm { (l : List (Option ℕ)) → NoneFails (S.failing s.old) by l → NoneFails (S.failing s.new) by l }
    ensures quiet { (l : List (Option ℕ)) → NoneFails (S.failing s.old) by l → result ≢ Err Halt.Failed }
    ensures counts { (k : Kind) → S.faults s.old k ≤ S.faults s.new k }
    ensures cause { result ≡ Err Halt.Failed → Rose (S.faults s.old Call.Log) (S.faults s.new Call.Log) }
{
    let fault = reader.stop(Fault::BadField);
    let number = u32::from_be_bytes(reader.bytes::<4, S>(s, by)?);
    if number < 1 {
        return Err(fault);
    }
    Ok(number)
}

/// A number of eight bytes, at least 1.
pub(crate) fn counted64<S: Storage>(reader: &mut Reader, s: &mut S, by: NodeNo) -> Result<u64, Halt>
    requires by { IsIn (S.logs s.old) by }
    requires node { IsIn (S.logs s.old) reader.old.node }
    requires reads { (log : List ℕ) → IsLog (S.logs s.old) reader.old.node log → Reads reader.old log }
    ensures ok { IfOk result (λ n. (log : List ℕ) → IsLog (S.logs s.old) reader.old.node log → at_least 1 w64 (left_of reader.old log) ≡ Ok (n, left_of reader.new log)) }
    ensures err { IfErr result (λ e. IfSome (halt_stop e) (λ t. (log : List ℕ) → IsLog (S.logs s.old) reader.old.node log → at_least 1 w64 (left_of reader.old log) ≡ Err t)) }
    ensures place { OnOk result (reader.new.place ≡ reader.old.place + 8) }
    ensures reads { OnOk result ((log : List ℕ) → IsLog (S.logs s.old) reader.old.node log → Reads reader.new log) }
    ensures limit { reader.new.limit ≡ reader.old.limit }
    ensures fixed { (reader.new.node ≡ reader.old.node) × (reader.new.end ≡ reader.old.end) }
    ensures kept { (S.pages s.new ≡ S.pages s.old) × (S.rooms s.new ≡ S.rooms s.old) × (S.stops s.new ≡ S.stops s.old) }
    ensures logs { S.logs s.new ≡ S.logs s.old }
    ensures calm { (l : List (Option ℕ)) → NoneFails (S.failing s.old) by l → NoneFails (S.failing s.new) by l }
    ensures quiet { (l : List (Option ℕ)) → NoneFails (S.failing s.old) by l → result ≢ Err Halt.Failed }
    ensures counts { (k : Kind) → S.faults s.old k ≤ S.faults s.new k }
    ensures cause { result ≡ Err Halt.Failed → Rose (S.faults s.old Call.Log) (S.faults s.new Call.Log) }
{
    let fault = reader.stop(Fault::BadField);
    let number = u64::from_be_bytes(reader.bytes::<8, S>(s, by)?);
    if number < 1 {
        return Err(fault);
    }
    Ok(number)
}
