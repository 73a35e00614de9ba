ghost use Rattle.std.specs.Prelude.{◌≡◌, ◌<◌, ◌^◌, ◌++◌, ℕ, List, length, IfOk, IfErr, IfSome};
ghost use Rattle.std.specs.List.{AllByRecursion};
ghost use Rattle.text_rules.specs.MessageBytes.{tx_bytes, wait_bytes, lock_bytes, right_bytes, list_bytes, IsTx, IsPageOf};
ghost use Rattle.pcl_base.specs.Limits.{Sizes};
ghost use Rattle.text_rules.specs.FieldBytes.{Reader};
ghost use Rattle.text_rules.specs.ReadMessage.{tx_field, wait_field, lock_field, right_item, list_field};
ghost use Rattle.messages.specs.Reading.{stop_of, stop_in};

use crate::fields::{Fields, ReadFault, Stopped};
use pcl_base::{Config, Items, NodeNo, ReportLock, ReportRight, ReportWait, TxId};
use std::alloc::Global;

/// What stands in the lists of messages.
pub trait Item: Drop + Sized {
    /// The item as a field of a cluster of these sizes; in a report it is of the partition.
    ghost field: { Sizes → ℕ → Reader Self };

    /// The bytes of the item.
    ghost bytes: { Self → List ℕ };

    /// Whether the item may stand in a list.
    ghost IsItem: { Sizes → ℕ → Self → Type 0 };

    /// The item that comes next.
    fn read(fields: &mut Fields, config: &Config, partition: NodeNo) -> Result<Self, Stopped>
        ensures ok { IfOk result (λ x. field config.now partition fields.old ≡ Ok (x, fields.new)) }
        ensures err { IfErr result (λ s. field config.now partition fields.old ≡ Err (stop_of s)) }
        ensures spelt { IfOk result (λ x. fields.old ≡ bytes x ++ fields.new) }
        ensures is_item { IfOk result (IsItem config.now partition) };
}

impl Item for TxId {
    ghost field = { λ c q. tx_field c };

    ghost bytes = { tx_bytes };

    ghost IsItem = { λ c q t. IsTx c t };

    fn read(fields: &mut Fields, config: &Config, _partition: NodeNo) -> Result<TxId, Stopped> {
        fields.tx(config)
    }
}

impl Item for ReportWait {
    ghost field = { λ c q. wait_field c q };

    ghost bytes = { wait_bytes };

    ghost IsItem = { λ c q w. IsTx c w.tx × IsPageOf c q w.page };

    fn read(
        fields: &mut Fields,
        config: &Config,
        partition: NodeNo,
    ) -> Result<ReportWait, Stopped> {
        let tx = fields.tx(config)?;
        let page = fields.page_of(config, partition)?;
        let mode = fields.mode()?;
        let have = fields.version()?;
        Ok(ReportWait {
            tx,
            page,
            mode,
            have,
        })
    }
}

impl Item for ReportLock {
    ghost field = { λ c q. lock_field c q };

    ghost bytes = { lock_bytes };

    ghost IsItem = { λ c q l. IsTx c l.tx × IsPageOf c q l.page };

    fn read(
        fields: &mut Fields,
        config: &Config,
        partition: NodeNo,
    ) -> Result<ReportLock, Stopped> {
        let tx = fields.tx(config)?;
        let page = fields.page_of(config, partition)?;
        let mode = fields.mode()?;
        Ok(ReportLock { tx, page, mode })
    }
}

impl Item for ReportRight {
    ghost field = { λ c q. right_item c q };

    ghost bytes = { right_bytes };

    ghost IsItem = { λ c q t. IsPageOf c q t.page };

    fn read(
        fields: &mut Fields,
        config: &Config,
        partition: NodeNo,
    ) -> Result<ReportRight, Stopped> {
        let page = fields.page_of(config, partition)?;
        let version = fields.number64()?;
        Ok(ReportRight { page, version })
    }
}

/// A list: the number of its items and the items.
pub fn list<T: Item>(
    alloc: Global,
    fields: &mut Fields,
    config: &Config,
    partition: NodeNo,
) -> Result<Items<T>, ReadFault>
    ensures ok { IfOk result (λ xs. list_field (T.field config.now partition) fields.old ≡ Ok (xs, fields.new)) }
    ensures err { IfErr result (λ e. IfSome (stop_in e) (λ s. list_field (T.field config.now partition) fields.old ≡ Err s)) }
    ensures spelt { IfOk result (λ xs. fields.old ≡ list_bytes T.bytes xs ++ fields.new) }
    ensures is_list { IfOk result (λ xs. (length xs < 2 ^ 32) × AllByRecursion (T.IsItem config.now partition) xs) }
{
    let count = fields.number32()?;
    let mut items = Vec::new(alloc);
    for _ in 0..count {
        let item = T::read(fields, config, partition)?;
        items.push(item)?;
    }
    Ok(Items::of(items))
}
