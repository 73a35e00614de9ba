ghost use Rattle.std.specs.Prelude.{◌≡◌, ◌<◌, ◌++◌, Some, IfOk, OnOk};
ghost use Rattle.lock_table.specs.Tables.{IsPageOf, table_of};
ghost use Rattle.node_parts.specs.State.{AreParts, node_of};
ghost use Rattle.node_looks.specs.Looks.{holding, holds_in, open_names, waiters_in, waiting, waits_at, waits_in};

use lock_table::Table;
use node_parts::Parts;
use pcl_base::{Held, Mode, NoMemory, PageNo, TxId, Waiter};

/// An access that waits for a page of a partition that is served.
#[derive(Clone, Copy, Debug, PartialEq, Eq)]
pub struct WaitItem {
    /// The page.
    pub page: PageNo,
    /// The transaction that waits.
    pub tx: TxId,
    /// The mode that it waits for.
    pub mode: Mode,
}

/// A page that an open transaction holds.
#[derive(Clone, Copy, Debug, PartialEq, Eq)]
pub struct HoldItem {
    /// The transaction.
    pub tx: TxId,
    /// The page.
    pub page: PageNo,
    /// The mode.
    pub mode: Mode,
}

/// The open transactions, by serial. `NoMemory` where memory is refused.
pub fn txs(parts: &Parts) -> Result<Vec<TxId>, NoMemory>
    ensures { IfOk result (λ ts. ts.items ≡ open_names (node_of parts.now)) }
{
    parts.home.txs().ids()
}

/// What the open transactions hold, of every kind, by serial and then first access. `NoMemory` where
/// memory is refused.
pub fn holding(parts: &Parts) -> Result<Vec<HoldItem>, NoMemory>
    ensures { IfOk result (λ hs. hs.items ≡ holding (node_of parts.now)) }
{
    let mut items = Vec::new(parts.alloc);
    let ids = parts.home.txs().ids()?;
    let names = ids.as_slice();
    for tx in names {
        add_holds(&mut items, *tx, parts.home.txs().locks(*tx))?;
    }
    Ok(items)
}

/// Who waits for a page of a partition that the node serves: pages rising, each in the order of its
/// list. `NoMemory` where memory is refused.
pub fn waiting(parts: &Parts) -> Result<Vec<WaitItem>, NoMemory>
    requires { AreParts parts.now }
    ensures { IfOk result (λ ws. ws.items ≡ waiting (node_of parts.now)) }
{
    let mut items = Vec::new(parts.alloc);
    let pages = parts.home.config().pages();
    for page in 0..pages {
        add_waits(parts, &mut items, page)?;
    }
    Ok(items)
}

/// Puts who waits for a page last, where its partition is served.
fn add_waits(parts: &Parts, items: &mut Vec<WaitItem>, page: PageNo) -> Result<(), NoMemory>
    requires parts { AreParts parts.now }
    requires page { page < parts.now.home.config.pages }
    ensures { OnOk result (items.new.items ≡ items.old.items ++ waits_at (node_of parts.now) page) }
{
    match parts.tables.at(parts.home.config().partition(page)) {
        None => Ok(()),
        Some(table) => add_waits_in(items, page, table),
    }
}

/// Puts who waits for a page of a table last, where the table is served.
fn add_waits_in(items: &mut Vec<WaitItem>, page: PageNo, table: &Table) -> Result<(), NoMemory>
    requires { IsPageOf table.now page }
    ensures { OnOk result (items.new.items ≡ items.old.items ++ waits_in page (waiters_in (Some (table_of table.now)) page)) }
{
    if !table.serving() {
        return Ok(());
    }
    match table.find(page) {
        None => Ok(()),
        Some(entry) => add_waiters(items, page, entry.waiting()),
    }
}

/// Puts what a transaction holds last.
fn add_holds(items: &mut Vec<HoldItem>, tx: TxId, locks: &[Held]) -> Result<(), NoMemory>
    ensures { OnOk result (items.new.items ≡ items.old.items ++ holds_in tx locks.now) }
{
    for lock in locks {
        items.push(HoldItem {
            tx,
            page: lock.page,
            mode: lock.mode,
        })?;
    }
    Ok(())
}

/// Puts who waits for a page last.
fn add_waiters(items: &mut Vec<WaitItem>, page: PageNo, waiting: &[Waiter]) -> Result<(), NoMemory>
    ensures { OnOk result (items.new.items ≡ items.old.items ++ waits_in page waiting.now) }
{
    for waiter in waiting {
        items.push(WaitItem {
            page,
            tx: waiter.tx,
            mode: waiter.mode,
        })?;
    }
    Ok(())
}
