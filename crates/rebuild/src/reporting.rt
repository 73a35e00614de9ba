//! What a node has of a partition, told to the partition's new owner.
ghost use Rattle.std.specs.Prelude.{◌≡◌, ◌==◌, ◌&&◌, ◌++◌, List, IfOk, OnOk, map};
ghost use Rattle.std.specs.List.{filter};
ghost use Rattle.std.specs.Option.{option_copied};
ghost use Rattle.node_rules.specs.InstallRule.{take_over};
ghost use Rattle.node_rules.specs.NodeState.{Written, partition};
ghost use Rattle.node_rules.specs.OpenTxs.{locks_of, pending_of};
ghost use Rattle.node_rules.specs.Shelf.{Right};
ghost use Rattle.node_rules.specs.Reports.{report, own_report, is_listed, locks_in, wait_in, all_locks, all_waits, all_rights};
ghost use Rattle.rebuild.specs.Parts.{home_of};

use buffer_pool::BufferPool;
use pcl_base::{
    Config, Held, Items, Kind, NoMemory, NodeNo, PageNo, Pending, Report, ReportLock, ReportRight,
    ReportWait, TxId, Version,
};
use read_right::Shelf;
use std::alloc::{AllocError, Global};
use tx_table::TxTable;

/// The report of a partition for its new owner: the registered locks of the open transactions on
/// its pages, the rights to read them, and the waiting accesses, each with the version of the
/// node's copy as it is now. Locks under rights aren't listed. It carries the install rule, reports.
/// Locks and waiting accesses go by the transaction's serial, then the order of first access;
/// rights in the order of acceptance. Answers `NoMemory` where memory is refused.
#[tactic(auto, unfolding(node_rules::specs::Reports::report))]
pub fn report(
    alloc: Global,
    txs: &TxTable,
    shelf: &Shelf,
    pool: &BufferPool,
    config: &Config,
    partition: NodeNo,
) -> Result<Report, NoMemory>
    ensures { (w : List Written) → IfOk result (λ r. r ≡ report partition (home_of config.now txs.now shelf.now.rights pool.now w)) }
{
    let scope = Scope {
        config: *config,
        partition,
        all: false,
    };
    let Lists { locks, waits } = lists_of(alloc, &scope, txs, pool)?;
    Ok(Report {
        partition,
        waits,
        locks,
        rights: rights_of(alloc, &scope, shelf)?,
    })
}

/// What the new owner itself has of its partition, as a report: the locks of the open transactions
/// on its pages, of all kinds in one run, and the waiting accesses. It lists no rights: a right is
/// spent when its node becomes the owner, and the locks under it, if it has any, are among these.
/// It carries the install rule, a partition that the node gets. The order is that of `report`.
/// Answers `NoMemory` where memory is refused.
#[tactic(auto, unfolding(node_rules::specs::Reports::own_report))]
pub fn own_report(
    alloc: Global,
    txs: &TxTable,
    pool: &BufferPool,
    config: &Config,
    partition: NodeNo,
) -> Result<Report, NoMemory>
    ensures told { (rs : List Right) (w : List Written) → IfOk result (λ r. r ≡ own_report partition (home_of config.now txs.now rs pool.now w)) }
    // It is the same once the locks are own ones and the rights are spent.
    ensures taken { (rs : List Right) (w : List Written) → IfOk result (λ r. r ≡ own_report partition (take_over partition (home_of config.now txs.now rs pool.now w))) }
{
    let scope = Scope {
        config: *config,
        partition,
        all: true,
    };
    let Lists { locks, waits } = lists_of(alloc, &scope, txs, pool)?;
    Ok(Report {
        partition,
        waits,
        locks,
        rights: Items::new(alloc),
    })
}

/// What a report covers: the partition of a configuration, and its locks of all kinds or the
/// registered ones alone.
#[derive(Clone, Copy, Debug)]
struct Scope {
    config: Config,
    partition: NodeNo,
    all: bool,
}

impl Scope {
    /// Whether a page is one of the partition.
    fn has(&self, page: PageNo) -> bool
        ensures { result ≡ (partition self.now.config page == self.now.partition) }
    {
        page % self.config.nodes() == self.partition as u32
    }

    /// Whether a lock is listed.
    fn lists(&self, lock: &Held) -> bool
        ensures { result ≡ (partition self.now.config lock.now.page == self.now.partition && is_listed self.now.all lock.now.kind) }
    {
        self.has(lock.page) && is_listed(self.all, lock.kind)
    }
}

/// Whether a lock of this kind is listed.
fn is_listed(all: bool, kind: Kind) -> bool
    ensures { result ≡ is_listed all kind }
{
    all || kind == Kind::Registered
}

/// The lists of a report that go by transactions.
#[derive(Debug, Drop)]
struct Lists {
    locks: Items<ReportLock>,
    waits: Items<ReportWait>,
}

impl Lists {
    /// Puts what a transaction holds and waits for last.
    fn add(
        &mut self,
        scope: &Scope,
        txs: &TxTable,
        pool: &BufferPool,
        tx: TxId,
    ) -> Result<(), NoMemory>
        ensures locks { OnOk result (self.new.locks ≡ self.old.locks ++ locks_in scope.now.config scope.now.partition scope.now.all tx (locks_of txs.now tx)) }
        ensures waits { OnOk result (self.new.waits ≡ self.old.waits ++ wait_in scope.now.config scope.now.partition pool.now tx (pending_of txs.now tx)) }
    {
        add_locks(&mut self.locks, scope, tx, txs.locks(tx))?;
        add_wait(&mut self.waits, scope, pool, tx, txs.pending(tx))
    }
}

/// The locks and the waiting accesses of all open transactions, by serial.
fn lists_of(
    alloc: Global,
    scope: &Scope,
    txs: &TxTable,
    pool: &BufferPool,
) -> Result<Lists, NoMemory>
    ensures locks { IfOk result (λ l. l.locks ≡ all_locks scope.now.config scope.now.partition scope.now.all txs.now txs.now.txs) }
    ensures waits { IfOk result (λ l. l.waits ≡ all_waits scope.now.config scope.now.partition pool.now txs.now txs.now.txs) }
{
    let mut lists = Lists {
        locks: Items::new(alloc),
        waits: Items::new(alloc),
    };
    for tx in txs.ids()?.as_slice() {
        lists.add(scope, txs, pool, *tx)?;
    }
    Ok(lists)
}

/// Puts the locks of a transaction that are listed last.
fn add_locks(
    locks: &mut Items<ReportLock>,
    scope: &Scope,
    tx: TxId,
    held: &[Held],
) -> Result<(), NoMemory>
    ensures { OnOk result (locks.new ≡ locks.old ++ locks_in scope.now.config scope.now.partition scope.now.all tx held.now) }
{
    for lock in held {
        if scope.lists(lock) {
            locks.push(ReportLock {
                tx,
                page: lock.page,
                mode: lock.mode,
            })?;
        }
    }
    Ok(())
}

/// Puts the access for which a transaction waits last, where it is of the partition.
fn add_wait(
    waits: &mut Items<ReportWait>,
    scope: &Scope,
    pool: &BufferPool,
    tx: TxId,
    pending: Option<&Pending>,
) -> Result<(), NoMemory>
    ensures { OnOk result (waits.new ≡ waits.old ++ wait_in scope.now.config scope.now.partition pool.now tx (option_copied pending.entry)) }
{
    let Some(access) = pending else {
        return Ok(());
    };
    if !scope.has(access.page) {
        return Ok(());
    }
    waits.push(ReportWait {
        tx,
        page: access.page,
        mode: access.mode,
        have: pool.find(access.page),
    })?;
    Ok(())
}

/// The rights to read pages of the partition, in the order of acceptance.
fn rights_of(alloc: Global, scope: &Scope, shelf: &Shelf) -> Result<Items<ReportRight>, NoMemory>
    ensures { IfOk result (λ rs. rs ≡ all_rights scope.now.config scope.now.partition shelf.now.rights) }
{
    Ok(Items::of(listed(alloc, scope, shelf.rights()?.as_slice())?))
}

/// The rights on pages of the partition, as a report lists them.
fn listed(
    alloc: Global,
    scope: &Scope,
    rights: &[(PageNo, Version)],
) -> Result<Vec<ReportRight>, AllocError>
    ensures { IfOk result (λ rs. rs.items ≡ map (λ r. record { page = r.0; version = r.1 }) (filter (λ r. partition scope.now.config r.0 == scope.now.partition) rights.now)) }
{
    rights
        .iter()
        .filter(|(page, _)| scope.has(*page))
        .map(|(page, version)| ReportRight {
            page: *page,
            version: *version,
        })
        .collect(alloc)
}
