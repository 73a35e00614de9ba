ghost use Rattle.std.specs.Prelude.{◌≡◌, IfOk};
ghost use Rattle.rebuild.specs.Parts.{IsReportOf};

use super::*;
use authority_map::View;
use buffer_pool::BufferPool;
use lock_table::Table;
use pcl_base::{
    Config, Held, Items, Kind, Mode, NoMemory, PageNo, Pending, Report, ReportLock, ReportRight,
    ReportWait, TxId,
};
use read_right::Shelf;
use std::alloc::Global;
use std::rt::HostRuntime;
use std::test::Fail;
use tx_table::TxTable;

fn tx(node: u8, serial: u32) -> TxId {
    TxId {
        node,
        born: 1,
        serial,
    }
}

/// Gives an open transaction a lock.
fn lock(txs: &mut TxTable, tx: TxId, page: PageNo, kind: Kind) -> Result<(), NoMemory> {
    if !txs.is_open(tx) {
        return Ok(());
    }
    let mode = Mode::Shared;
    txs.add(tx, Held { page, mode, kind })
}

/// Lets an open transaction that doesn't wait wait.
fn wait(txs: &mut TxTable, tx: TxId, page: PageNo) -> Result<(), NoMemory> {
    if !txs.is_open(tx) {
        return Ok(());
    }
    if txs.pending(tx).is_some() {
        return Ok(());
    }
    let mode = Mode::Exclusive;
    let write = None;
    txs.wait(tx, Pending { page, mode, write })
}

/// Node 0 with two open transactions: the first holds page 4 under a right, page 7 registered and
/// page 3 of its own, the second holds page 1 registered and waits for page 4.
fn opened(alloc: Global) -> Result<TxTable, Fail> {
    let mut txs = TxTable::open(alloc, 0, 1, 1);
    let first = txs.begin()?;
    let second = txs.begin()?;
    lock(&mut txs, first, 4, Kind::Right)?;
    lock(&mut txs, first, 7, Kind::Registered)?;
    lock(&mut txs, first, 3, Kind::Own)?;
    lock(&mut txs, second, 1, Kind::Registered)?;
    wait(&mut txs, second, 4)?;
    Ok(txs)
}

fn shared(serial: u32, page: PageNo) -> ReportLock
    ensures { result.page ≡ page }
{
    ReportLock {
        tx: tx(0, serial),
        page,
        mode: Mode::Shared,
    }
}

// What a node that reads under a right, waits and holds tells of partition 1: two registered
// locks, the right, and the waiting access without a copy.
#[test]
fn a_report(rt: HostRuntime) -> Result<(), Fail> {
    let config = Config::new(3, 9, 8, 4)?;
    let txs = opened(rt.alloc())?;
    let mut shelf = Shelf::open(rt.alloc());
    let accepted = (shelf.accept(4, 5), shelf.accept(2, 6));
    match BufferPool::open(rt.alloc(), 4, 8) {
        Ok(pool) => {
            let told = report(rt.alloc(), &txs, &shelf, &pool, &config, 1);
            let own = own_report(rt.alloc(), &txs, &pool, &config, 1);
            pool.close();
            shelf.forfeit_all();
            assert_eq!(rt; accepted, (Ok(true), Ok(true)));
            let told = told.expect(&rt, "memory");
            assert_eq!(rt;
                told.locks.as_slice(),
                [shared(1, 7), shared(2, 1)].as_slice()
            );
            assert_eq!(rt;
                told.rights.as_slice(),
                [ReportRight {
                    page: 4,
                    version: 5
                }]
                .as_slice()
            );
            assert_eq!(rt;
                told.waits.as_slice(),
                [ReportWait {
                    tx: tx(0, 2),
                    page: 4,
                    mode: Mode::Exclusive,
                    have: None
                }]
                .as_slice()
            );
            let own = own.expect(&rt, "memory");
            assert_eq!(rt;
                own.locks.as_slice(),
                [shared(1, 4), shared(1, 7), shared(2, 1)].as_slice()
            );
            assert_eq!(rt; own.waits, told.waits);
            assert_eq!(rt; own.rights.len(), 0);
        }
        Err(_) => {
            shelf.forfeit_all();
            assert!(rt; false);
        }
    }
    Ok(())
}

/// Gives a lock of an open transaction another kind.
fn set_kind(txs: &mut TxTable, tx: TxId, page: PageNo, kind: Kind) {
    if !txs.is_open(tx) {
        return;
    }
    if txs.held(tx, page).is_none() {
        return;
    }
    txs.set_kind(tx, page, kind);
}

// A planned move of partition 0: the old owner's locks count as registered and are told.
#[test]
fn a_planned_move(rt: HostRuntime) -> Result<(), Fail> {
    let config = Config::new(3, 9, 8, 4)?;
    let mut txs = opened(rt.alloc())?;
    let shelf = Shelf::open(rt.alloc());
    match BufferPool::open(rt.alloc(), 4, 8) {
        Ok(pool) => {
            let before = report(rt.alloc(), &txs, &shelf, &pool, &config, 0);
            set_kind(&mut txs, tx(0, 1), 3, Kind::Registered);
            let after = report(rt.alloc(), &txs, &shelf, &pool, &config, 0);
            pool.close();
            shelf.forfeit_all();
            assert_eq!(rt; before.expect(&rt, "memory").locks.len(), 0);
            assert_eq!(rt;
                after.expect(&rt, "memory").locks.as_slice(),
                [shared(1, 3)].as_slice()
            );
        }
        Err(_) => {
            shelf.forfeit_all();
            assert!(rt; false);
        }
    }
    Ok(())
}

/// What node 0 tells of the table's partition, which is partition 1 of three nodes and nine pages.
fn told(alloc: Global, table: &Table) -> Result<Report, NoMemory>
    requires nodes { table.now.config.nodes ≡ 3 }
    requires pages { table.now.config.pages ≡ 9 }
    requires partition { table.now.partition ≡ 1 }
    ensures { IfOk result (λ r. IsReportOf table.now r) }
{
    let wait = ReportWait {
        tx: tx(0, 2),
        page: 4,
        mode: Mode::Exclusive,
        have: Some(3),
    };
    let right = ReportRight {
        page: 4,
        version: 5,
    };
    Ok(Report {
        partition: table.partition(),
        waits: Items::of(Vec::from_array(alloc, [wait])?),
        locks: Items::of(Vec::from_array(alloc, [shared(1, 7)])?),
        rights: Items::of(Vec::from_array(alloc, [right])?),
    })
}

// A table of partition 1 at node 1 is complete once nodes 0 and 2 have reported. What is told
// again isn't put in twice, but for the right of another node.
#[test]
fn reports_come_together(rt: HostRuntime) {
    let config = Config::new(3, 9, 8, 4).unwrap();
    assert_eq!(rt; config.nodes(), 3);
    assert_eq!(rt; config.pages(), 9);
    let view = View::first(rt.alloc(), &config).expect(&rt, "memory");
    let mut table = Table::open(rt.alloc(), &config, 1, false).expect(&rt, "memory");
    assert!(rt; missing(&table, &config, &view));
    let report = told(rt.alloc(), &table).expect(&rt, "memory");
    let first = gather(&mut table, &config, 0, &report, &view).expect(&rt, "memory");
    let report = told(rt.alloc(), &table).expect(&rt, "memory");
    let second = gather(&mut table, &config, 2, &report, &view).expect(&rt, "memory");
    assert_eq!(rt; (first, second), (false, true));
    let lists = table
        .find(4)
        .map_or((0, 0), |e| (e.rights().len(), e.waiting().len()));
    assert_eq!(rt; lists, (2, 1));
    assert_eq!(rt; table.find(7).map_or(0, |e| e.holders().len()), 1);
}

// What a lost node holds goes, and the empty entry stays.
#[test]
fn a_lost_node(rt: HostRuntime) {
    let config = Config::new(3, 9, 8, 4).unwrap();
    assert_eq!(rt; config.nodes(), 3);
    assert_eq!(rt; config.pages(), 9);
    let mut table = Table::open(rt.alloc(), &config, 1, true).expect(&rt, "memory");
    let entry = table.entry(7).expect(&rt, "memory");
    assert_eq!(rt; entry.reported(tx(0, 1), Mode::Shared), Ok(()));
    assert_eq!(rt; purge(&mut table, &config, &[false, true, true]), Ok(()));
    assert_eq!(rt; table.find(7).map_or(9, |e| e.holders().len()), 0);
}
