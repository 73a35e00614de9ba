ghost use Rattle.std.specs.Prelude.{◌≡◌, ℕ, ◌+◌, ◌-◌, ◌<◌, ◌≤◌, ◌∷◌, length, IfOk, IfErr, IfSome, Ok, Err};
ghost use Rattle.std.proofs.Common.{suc};
ghost use Rattle.text_rules.specs.FieldBytes.{after, give, piece};
ghost use Rattle.text_rules.specs.LogRecord.{ranges_field, part_field, changes_field, body_field, record_field, node_of_mark, records_of, whole_len};
ghost use Rattle.redo_log.specs.Stopping.{stop_of, stop_in};

use crate::fields::{Fields, ReadFault};
use pcl_base::{ChangedRange, Config, Items, Logged, NoMemory, Page, Part, Ranges, Record, TxId};
use std::alloc::Global;

/// What a log says: its whole records, and their length. What stands behind them is torn.
#[derive(Debug, Drop)]
pub struct Scanned {
    /// The whole records in order.
    pub records: Items<Record>,
    /// The length of all of them.
    pub whole: u64,
}

/// So many bytes.
fn bytes(alloc: Global, fields: &mut Fields, count: usize) -> Result<Page, ReadFault>
    ensures ok { IfOk result (λ b. piece count fields.old ≡ Ok (b, fields.new)) }
    ensures length { IfOk result (λ b. length b ≡ count) }
    ensures err { IfErr result (λ e. IfSome (stop_in e) (λ s. piece count fields.old ≡ Err s)) }
{
    let bytes = fields.piece(count)?;
    Ok(Items::of(Vec::from_slice(alloc, bytes)?))
}

/// A changed range that begins at `low` or later and ends within the page.
fn range(alloc: Global, fields: &mut Fields, size: u32, low: u32) -> Result<ChangedRange, ReadFault>
    requires { size ≤ 4096 }
    ensures ok { IfOk result (λ r. (n : ℕ) → ranges_field size low (suc n) fields.old ≡ after (ranges_field size (r.place + length r.bytes + 1) n fields.new) (λ rs. give (r ∷ rs))) }
    ensures within { IfOk result (λ r. r.place + length r.bytes ≤ size) }
    ensures err { IfErr result (λ e. IfSome (stop_in e) (λ s. (n : ℕ) → ranges_field size low (suc n) fields.old ≡ Err s)) }
{
    let place = fields.between16(low, size)? as u32;
    let count = fields.between16(1, size - place)?;
    let bytes = bytes(alloc, fields, count as usize)?;
    Ok(ChangedRange { place, bytes })
}

/// So many changed ranges, rising and apart from one another.
fn ranges(alloc: Global, fields: &mut Fields, size: u32, count: u16) -> Result<Ranges, ReadFault>
    requires { size ≤ 4096 }
    ensures ok { IfOk result (λ rs. ranges_field size 0 count fields.old ≡ Ok (rs, fields.new)) }
    ensures err { IfErr result (λ e. IfSome (stop_in e) (λ s. ranges_field size 0 count fields.old ≡ Err s)) }
{
    let mut ranges = Vec::new(alloc);
    let mut low = 0;
    for _ in 0..count {
        let range = range(alloc, fields, size, low)?;
        low = range.place + range.bytes.len() as u32 + 1;
        ranges.push(range)?;
    }
    Ok(Items::of(ranges))
}

/// The whole page, or its changed ranges.
fn part(alloc: Global, fields: &mut Fields, size: u32, whole: bool) -> Result<Part, ReadFault>
    requires { size ≤ 4096 }
    ensures ok { IfOk result (λ p. part_field size whole fields.old ≡ Ok (p, fields.new)) }
    ensures err { IfErr result (λ e. IfSome (stop_in e) (λ s. part_field size whole fields.old ≡ Err s)) }
{
    if whole {
        return Ok(Part::Image(bytes(alloc, fields, size as usize)?));
    }
    let count = fields.counted16()?;
    Ok(Part::Ranges(ranges(alloc, fields, size, count)?))
}

/// A changed page that is numbered `low` or higher.
fn change(
    alloc: Global,
    fields: &mut Fields,
    config: &Config,
    whole: bool,
    low: u32,
) -> Result<Logged, ReadFault>
    ensures ok { IfOk result (λ x. (n : ℕ) → changes_field config.now whole low (suc n) fields.old ≡ after (changes_field config.now whole (x.page + 1) n fields.new) (λ xs. give (x ∷ xs))) }
    ensures within { IfOk result (λ x. x.page < 65536) }
    ensures err { IfErr result (λ e. IfSome (stop_in e) (λ s. (n : ℕ) → changes_field config.now whole low (suc n) fields.old ≡ Err s)) }
{
    let page = fields.between32(low, config.pages() - 1)?;
    let version = fields.counted64()?;
    let part = part(alloc, fields, config.size(), whole)?;
    Ok(Logged {
        page,
        version,
        part,
    })
}

/// So many changed pages, rising by number.
fn changes(
    alloc: Global,
    fields: &mut Fields,
    config: &Config,
    whole: bool,
    count: u32,
) -> Result<Items<Logged>, ReadFault>
    ensures ok { IfOk result (λ xs. changes_field config.now whole 0 count fields.old ≡ Ok (xs, fields.new)) }
    ensures err { IfErr result (λ e. IfSome (stop_in e) (λ s. changes_field config.now whole 0 count fields.old ≡ Err s)) }
{
    let mut changes = Vec::new(alloc);
    let mut low = 0;
    for _ in 0..count {
        let change = change(alloc, fields, config, whole, low)?;
        low = change.page + 1;
        changes.push(change)?;
    }
    Ok(Items::of(changes))
}

/// A record behind its length.
fn body(alloc: Global, fields: &mut Fields, config: &Config) -> Result<Record, ReadFault>
    ensures ok { IfOk result (λ r. body_field config.now fields.old ≡ Ok (r, fields.new)) }
    ensures err { IfErr result (λ e. IfSome (stop_in e) (λ s. body_field config.now fields.old ≡ Err s)) }
{
    let mark = fields.mark(config.nodes() as u8)?;
    let born = fields.counted32()?;
    let serial = fields.counted32()?;
    let count = fields.counted32()?;
    let changes = changes(alloc, fields, config, mark < 128, count)?;
    let tx = TxId {
        node: node_of(mark),
        born,
        serial,
    };
    Ok(Record { tx, changes })
}

/// The node that a mark names.
pub(crate) fn node_of(mark: u8) -> u8
    ensures { result ≡ node_of_mark mark }
{
    if mark < 128 { mark } else { mark - 128 }
}

/// A record: its length and so many bytes, which are its body and no more.
fn entry(alloc: Global, fields: &mut Fields, config: &Config) -> Result<Record, ReadFault>
    ensures ok { IfOk result (λ r. record_field config.now fields.old ≡ Ok (r, fields.new)) }
    ensures err { IfErr result (λ e. IfSome (stop_in e) (λ s. record_field config.now fields.old ≡ Err s)) }
{
    let count = fields.number32()?;
    let bytes = fields.piece((count as usize).saturating_sub(4))?;
    let mut inner = Fields::of(bytes);
    let record = body(alloc, &mut inner, config)?;
    inner.end()?;
    Ok(record)
}

/// The whole records at the front of some bytes and their length: the rest begins at the first
/// place where no whole record of either format starts.
pub fn scan(alloc: Global, config: &Config, log: &[u8]) -> Result<Scanned, NoMemory>
    ensures records { IfOk result (λ s. s.records ≡ records_of config.now log.now) }
    ensures whole { IfOk result (λ s. s.whole ≡ whole_len config.now log.now) }
{
    let mut records = Vec::new(alloc);
    let mut rest = log;
    for _ in 0..log.len() {
        let mut fields = Fields::of(rest);
        match entry(alloc, &mut fields, config) {
            Ok(record) => records.push(record)?,
            Err(ReadFault::NoMemory) => return Err(NoMemory),
            Err(ReadFault::Stopped(_)) => return Ok(read_before(records, log, rest)),
        }
        rest = fields.rest();
    }
    Ok(read_before(records, log, rest))
}

/// The records that were read before the rest of a log.
fn read_before(records: Vec<Record>, log: &[u8], rest: &[u8]) -> Scanned
    ensures records { result.records ≡ records.items }
    ensures whole { result.whole ≡ length log.now - length rest.now }
{
    Scanned {
        records: Items::of(records),
        whole: log.len().saturating_sub(rest.len()) as u64,
    }
}

#[cfg(test)]
mod tests {
    use super::*;
    use std::test::Fail;

    #[test]
    fn a_torn_record_is_no_record(rt: HostRuntime) -> Result<(), Fail> {
        let config = Config::new(2, 4, 8, 2)?;
        let record =
            b"\x00\x00\x00\x25\x80\x00\x00\x00\x01\x00\x00\x00\x01\x00\x00\x00\x01\x00\x00\x00\x00\x00\x00\x00\x00\x00\x00\x00\x01\x00\x01\x00\x02\x00\x02\xbe\xef";
        let mut log = Vec::from_slice(rt.alloc(), record)?;
        for byte in record {
            let scanned = scan(rt.alloc(), &config, log.as_slice())
                .ok()
                .ok_or("no memory")?;
            assert_eq!(rt; scanned.whole, 37);
            assert_eq!(rt; scanned.records.len(), 1);
            log.push(*byte)?;
        }
        let scanned = scan(rt.alloc(), &config, log.as_slice())
            .ok()
            .ok_or("no memory")?;
        assert_eq!(rt; scanned.whole, 74);
        Ok(())
    }
}
