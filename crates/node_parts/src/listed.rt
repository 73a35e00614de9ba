ghost use Rattle.std.specs.Prelude.{◌≡◌, ◌*◌, ◌<◌, ◌≤◌, ◌^◌, Some, IfSome};
ghost use Rattle.std.specs.Option.{option_map};
ghost use Rattle.lock_table.specs.Tables.{IsPageOf, entry_of, table_of};
ghost use Rattle.node_rules.specs.LockTable.{entry_at};
ghost use Rattle.node_parts.specs.Counts.{AreShort, lists_in, lists_of};
ghost use Rattle.node_parts.specs.Tables.{IsTableAt};

use lock_entry::Entry;
use lock_table::Table;
use pcl_base::{Config, NodeNo, PageNo};

/// The waiting accesses and the rights in an entry.
pub(crate) fn listed_of(entry: &Entry) -> u128
    ensures value { result ≡ lists_of entry.now }
    ensures short { result ≤ 2 ^ 65 }
{
    entry.waiting().len() as u128 + entry.rights().len() as u128
}

/// The same of the entry of a page of a table.
pub(crate) fn listed_on(table: &Table, page: PageNo) -> u128
    requires { IsPageOf table.now page }
    ensures value { result ≡ lists_of (entry_of table.now page) }
    ensures short { result ≤ 2 ^ 65 }
    ensures entry { entry_at (table_of table.now) page ≡ entry_of table.now page }
{
    match table.find(page) {
        None => 0,
        Some(entry) => listed_of(entry),
    }
}

/// The same of a place, which the table of a partition has, or none.
pub(crate) fn listed_at(place: &Option<Table>, config: &Config, q: NodeNo) -> u128
    requires table { IfSome place.now (IsTableAt config.now q) }
    requires q { q < config.now.nodes }
    ensures value { result ≡ lists_in (option_map table_of place.now) }
    ensures short { AreShort (option_map table_of place.now) }
    ensures most { result ≤ 65536 * 2 ^ 65 }
{
    match place {
        None => 0,
        Some(table) => listed_in(table, config, q),
    }
}

/// The same of the table of a partition.
fn listed_in(table: &Table, config: &Config, q: NodeNo) -> u128
    requires table { IsTableAt config.now q table.now }
    requires q { q < config.now.nodes }
    ensures value { result ≡ lists_in (Some (table_of table.now)) }
    ensures short { AreShort (Some (table_of table.now)) }
    ensures most { result ≤ 65536 * 2 ^ 65 }
{
    let mut count: u128 = 0;
    let mut page = q as u32;
    while page < config.pages() {
        count += listed_on(table, page);
        page += config.nodes();
    }
    count
}
