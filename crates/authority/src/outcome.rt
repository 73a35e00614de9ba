ghost use Rattle.std.specs.Prelude.{◌≡◌, ℕ, Bool, true, false, IfOk};
ghost use Rattle.node_rules.specs.CopyRule.{copy_for};
ghost use Rattle.node_rules.specs.LockRule.{LockEntry};
ghost use Rattle.node_rules.specs.LockTable.{entry_at};
ghost use Rattle.lock_table.specs.Tables.{IsPageOf, table_of};
ghost use Rattle.authority.specs.Plans.{Plan, plan, plan_request, plan_release, plan_return, plan_settle, version_if};

use lock_entry::Entry;
use lock_table::Table;
use pcl_base::{CopyKind, Decision, NoMemory, NodeNo, PageNo, TxId, Version, Waiter};
use std::alloc::Global;

/// What an owner plans for a page: the entry afterwards, whether a change was taken, and the
/// decisions in the order in which they are carried out.
#[derive(Debug, Drop)]
pub struct Outcome {
    /// The page's entry afterwards.
    pub entry: Entry,
    /// Whether the change that a release brought was taken.
    pub changed: bool,
    /// The decisions of the lock rule, in order.
    pub decisions: Vec<Decision>,
}

/// A request arrives: it is put among those that wait, and the page is settled where its partition
/// is served. Carries the lock rule. Answers `NoMemory` where memory is refused.
pub fn on_request(
    alloc: Global,
    t: &Table,
    me: NodeNo,
    page: PageNo,
    w: Waiter,
) -> Result<Outcome, NoMemory>
    requires { IsPageOf t.now page }
    ensures { IfOk result (λ o. record { entry = o.entry; changed = o.changed; decisions = o.decisions.items } ≡ plan_request (table_of t.now) me page w) }
{
    let mut entry = entry_of(alloc, t, page)?;
    entry.ask(w)?;
    settled(alloc, t.serving(), false, me, entry)
}

/// A release arrives, or an own transaction ends: the transaction leaves the entry, and the page is
/// settled. Its change is taken exactly where the partition is served, the transaction held the
/// page exclusively and the change is of the next version; while the partition is rebuilt no change
/// is taken, since the log has it. Answers `NoMemory` where memory is refused.
pub fn on_release(
    alloc: Global,
    t: &Table,
    me: NodeNo,
    page: PageNo,
    tx: TxId,
    change: Option<Version>,
) -> Result<Outcome, NoMemory>
    requires { IsPageOf t.now page }
    ensures { IfOk result (λ o. record { entry = o.entry; changed = o.changed; decisions = o.decisions.items } ≡ plan_release (table_of t.now) me page tx change) }
{
    let mut entry = entry_of(alloc, t, page)?;
    let changed = entry.end(tx, change_if(t.serving(), change));
    settled(alloc, t.serving(), changed, me, entry)
}

/// A node gives its right back and names the transactions that still read under it: they become
/// holders, and the page is settled where its partition is served. Without such a right nothing
/// changes before the page is settled. Answers `NoMemory` where memory is refused.
pub fn on_return(
    alloc: Global,
    t: &Table,
    me: NodeNo,
    page: PageNo,
    from: NodeNo,
    readers: &[TxId],
) -> Result<Outcome, NoMemory>
    requires { IsPageOf t.now page }
    ensures { IfOk result (λ o. record { entry = o.entry; changed = o.changed; decisions = o.decisions.items } ≡ plan_return (table_of t.now) me page from readers.now) }
{
    let mut entry = entry_of(alloc, t, page)?;
    entry.returned(from, readers)?;
    settled(alloc, t.serving(), false, me, entry)
}

/// A page is settled where its partition is served. Answers `NoMemory` where memory is refused.
pub fn on_settle(alloc: Global, t: &Table, me: NodeNo, page: PageNo) -> Result<Outcome, NoMemory>
    requires { IsPageOf t.now page }
    ensures { IfOk result (λ o. record { entry = o.entry; changed = o.changed; decisions = o.decisions.items } ≡ plan_settle (table_of t.now) me page) }
{
    settled(alloc, t.serving(), false, me, entry_of(alloc, t, page)?)
}

/// Which copy of the page a grant names, by the copy rule at the entry's version: `have` is the
/// version that the asking node has, `buffered` the one in the owner's buffer.
pub fn copy_of(e: &Entry, have: Option<Version>, buffered: Option<Version>) -> CopyKind
    ensures { result ≡ copy_for have e.now.version buffered }
{
    invalidation::copy_for(have, e.version(), buffered)
}

// An equal copy of a page's entry: the one in the table, or an empty one at the page's version.
fn entry_of(alloc: Global, t: &Table, page: PageNo) -> Result<Entry, NoMemory>
    requires { IsPageOf t.now page }
    ensures { IfOk result (λ e. e ≡ entry_at (table_of t.now) page) }
{
    match t.find(page) {
        Some(entry) => entry.copy(),
        None => Ok(Entry::new(alloc, t.version(page))),
    }
}

// The change, where the partition is served.
fn change_if(serving: bool, change: Option<Version>) -> Option<Version>
    ensures { result ≡ version_if serving change }
{
    if serving {
        return change;
    }
    None
}

// The entry settled where the partition is served, else as it is.
fn settled(
    alloc: Global,
    serving: bool,
    changed: bool,
    me: NodeNo,
    entry: Entry,
) -> Result<Outcome, NoMemory>
    ensures { IfOk result (λ o. record { entry = o.entry; changed = o.changed; decisions = o.decisions.items } ≡ plan serving changed me entry) }
{
    let mut entry = entry;
    if serving {
        let decisions = entry.settle(me)?;
        return Ok(Outcome {
            entry,
            changed,
            decisions,
        });
    }
    Ok(Outcome {
        entry,
        changed,
        decisions: Vec::new(alloc),
    })
}
