ghost use Rattle.std.specs.Prelude.{None};
ghost use Rattle.node_parts.specs.State.{AreParts};

use super::*;
use disk_model::{Call, Storage};
use home::Access;
use node_looks::refusal;
use node_parts::{NodeEvent, Outputs, Parts, StepFault};
use pcl_base::{Config, Failed, Items, NoMemory, NodeNo, PageNo, Reply, TxId};
use std::alloc::Global;
use std::rt::HostRuntime;
use std::test::Fail;

/// A storage that tells no content. It counts page writes and forces, of which the next may fail once; its log
/// keeps as many bytes of that as it is told.
#[derive(Drop)]
struct Disk {
    fails: bool,
    kept: u64,
    log: u64,
    writes: u32,
    forces: u32,
}

impl Storage for Disk {
    ghost use Rattle.node_rules.specs.Words.{pick};

    ghost pages = { λ _. None };

    ghost logs = { λ _. None };

    ghost rooms = { λ _. None };

    ghost stops = { λ _. None };

    ghost failing = { λ _. None };

    ghost faults = { λ d _. pick d.fails 0 1 };

    fn room(&mut self, _node: NodeNo, _bytes: u64) -> Result<(), NoMemory> {
        Ok(())
    }

    fn read_page(&mut self, _by: NodeNo, _page: PageNo, out: &mut [u8]) -> Result<(), Failed> {
        out.fill(0);
        Ok(())
    }

    fn log_len(&mut self, _by: NodeNo, _node: NodeNo) -> Result<u64, Failed> {
        Ok(self.log)
    }

    fn read_log(
        &mut self,
        _by: NodeNo,
        _node: NodeNo,
        _from: u64,
        out: &mut [u8],
    ) -> Result<(), Failed> {
        out.fill(0);
        Ok(())
    }

    fn write_page(&mut self, _by: NodeNo, _page: PageNo, _bytes: &[u8]) -> Result<(), Failed> {
        self.writes = self.writes.saturating_add(1);
        Ok(())
    }

    fn force(&mut self, _node: NodeNo, bytes: &[u8]) -> Result<(), Failed> {
        self.forces = self.forces.saturating_add(1);
        if self.fails {
            self.fails = false;
            self.log = self.log.saturating_add(self.kept);
            return Err(Failed);
        }
        self.log = self.log.saturating_add(bytes.len() as u64);
        Ok(())
    }

    fn trim_log(&mut self, _node: NodeNo, _keep: u64) -> Result<(), Failed> {
        Ok(())
    }

    fn cut_log(&mut self, _node: NodeNo, _count: u64) -> Result<(), Failed> {
        Ok(())
    }
}

/// The transaction of node 0 that was begun as this one.
fn tx(serial: u32) -> TxId {
    TxId {
        node: 0,
        born: 1,
        serial,
    }
}

/// Begins a transaction.
fn begins(parts: &mut Parts, out: &mut Outputs) -> Result<(), StepFault>
    requires { AreParts parts.old }
    ensures { AreParts parts.new }
{
    if refusal(parts, &NodeEvent::Begin).is_some() {
        return Err(StepFault::NoMemory);
    }
    begin(parts, out)
}

/// Reads page 0.
fn reads(parts: &mut Parts, tx: TxId, s: &mut Disk, out: &mut Outputs) -> Result<(), StepFault>
    requires { AreParts parts.old }
    ensures { AreParts parts.new }
{
    if refusal(parts, &NodeEvent::Read { tx, page: 0 }).is_some() {
        return Err(StepFault::NoMemory);
    }
    let read = Access {
        tx,
        page: 0,
        write: None,
    };
    access(parts, &read, s, out)
}

/// Writes two sevens at place 2 of page 0.
fn writes(
    alloc: Global,
    parts: &mut Parts,
    tx: TxId,
    s: &mut Disk,
    out: &mut Outputs,
) -> Result<(), StepFault>
    requires { AreParts parts.old }
    ensures { AreParts parts.new }
{
    let bytes = Items::of(vec![in alloc; 7u8; 2]?);
    let event = NodeEvent::Write {
        tx,
        page: 0,
        place: 2,
        bytes: bytes.copy()?,
    };
    if refusal(parts, &event).is_some() {
        return Err(StepFault::NoMemory);
    }
    let write = Access {
        tx,
        page: 0,
        write: Some((2, bytes)),
    };
    access(parts, &write, s, out)
}

/// Commits a transaction.
fn commits(parts: &mut Parts, tx: TxId, s: &mut Disk, out: &mut Outputs) -> Result<(), StepFault>
    requires { AreParts parts.old }
    ensures { AreParts parts.new }
{
    if refusal(parts, &NodeEvent::Commit { tx }).is_some() {
        return Err(StepFault::NoMemory);
    }
    commit(parts, tx, s, out)
}

/// Gives a transaction up.
fn aborts(parts: &mut Parts, tx: TxId, s: &mut Disk, out: &mut Outputs) -> Result<(), StepFault>
    requires { AreParts parts.old }
    ensures { AreParts parts.new }
{
    if refusal(parts, &NodeEvent::Abort { tx }).is_some() {
        return Err(StepFault::NoMemory);
    }
    abort(parts, tx, s, out)
}

/// Writes the copy of page 0, and takes it out of the buffer.
fn lets_go(parts: &mut Parts, s: &mut Disk, out: &mut Outputs) -> Result<(), StepFault>
    requires { AreParts parts.old }
    ensures { AreParts parts.new }
{
    if refusal(parts, &NodeEvent::Flush { page: 0 }).is_some() {
        return Err(StepFault::NoMemory);
    }
    flush(parts, 0, s, out)?;
    if refusal(parts, &NodeEvent::Evict { page: 0 }).is_some() {
        return Err(StepFault::NoMemory);
    }
    evict(parts, 0, s, out)
}

/// A page is written and committed.
fn changed(
    alloc: Global,
    parts: &mut Parts,
    s: &mut Disk,
    out: &mut Outputs,
) -> Result<(), StepFault>
    requires { AreParts parts.old }
    ensures { AreParts parts.new }
{
    begins(parts, out)?;
    writes(alloc, parts, tx(1), s, out)?;
    commits(parts, tx(1), s, out)
}

/// The page is read by another transaction, which is given up, and leaves the buffer.
fn looked(parts: &mut Parts, s: &mut Disk, out: &mut Outputs) -> Result<(), StepFault>
    requires { AreParts parts.old }
    ensures { AreParts parts.new }
{
    begins(parts, out)?;
    reads(parts, tx(2), s, out)?;
    aborts(parts, tx(2), s, out)?;
    lets_go(parts, s, out)
}

/// Both, one after the other.
fn both(alloc: Global, parts: &mut Parts, s: &mut Disk, out: &mut Outputs) -> Result<(), StepFault>
    requires { AreParts parts.old }
{
    changed(alloc, parts, s, out)?;
    looked(parts, s, out)
}

/// The same at the only node of a database.
fn worked(alloc: Global, s: &mut Disk, out: &mut Outputs) -> Result<(), StepFault> {
    let config = Config::new(1, 2, 8, 4).unwrap();
    if config.nodes() != 1 {
        return Err(StepFault::NoMemory);
    }
    let mut parts = Parts::first(alloc, &config, 0)?;
    let done = both(alloc, &mut parts, s, out);
    parts.close();
    done
}

/// What is replied to it.
fn expected(alloc: Global) -> Result<Vec<Reply>, StepFault> {
    let (first, second) = (tx(1), tx(2));
    let seen = [0u8, 0, 7, 7, 0, 0, 0, 0];
    let bytes = Items::of(Vec::from_slice(alloc, seen.as_slice())?);
    let replies = [
        Reply::Begun { tx: first },
        Reply::Done {
            tx: first,
            page: 0,
            version: 0,
        },
        Reply::Committed { tx: first },
        Reply::Begun { tx: second },
        Reply::Value {
            tx: second,
            page: 0,
            version: 1,
            bytes,
        },
        Reply::Aborted { tx: second },
        Reply::Flushed,
        Reply::Evicted,
    ];
    Ok(Vec::from_array(alloc, replies)?)
}

// With ample memory a change is committed by one force, read, and written to disk once.
#[test]
fn a_change_is_committed_and_read(rt: HostRuntime) -> Result<(), Fail> {
    let mut disk = Disk {
        fails: false,
        kept: 0,
        log: 0,
        writes: 0,
        forces: 0,
    };
    let mut out = Outputs::open(rt.alloc());
    worked(rt.alloc(), &mut disk, &mut out)?;
    assert_eq!(rt; out.replies(), expected(rt.alloc())?.as_slice());
    assert_eq!(rt; out.sends().len(), 0);
    assert_eq!(rt; (disk.forces, disk.writes), (1, 1));
    Ok(())
}

/// The fault of a commit whose force fails and keeps so many bytes.
fn fault_of(alloc: Global, kept: u64) -> Option<StepFault> {
    let mut disk = Disk {
        fails: true,
        kept,
        log: 5,
        writes: 0,
        forces: 0,
    };
    let mut out = Outputs::open(alloc);
    worked(alloc, &mut disk, &mut out).err()
}

// The record has 37 bytes. A halt names the transaction where all of them stand in the log.
#[test]
fn a_halt_names_what_was_kept(rt: HostRuntime) {
    let call = Call::Force;
    let whole = StepFault::Halted {
        call,
        kept: Some(tx(1)),
    };
    assert_eq!(rt; fault_of(rt.alloc(), 37), Some(whole));
    assert_eq!(rt;
        fault_of(rt.alloc(), 36),
        Some(StepFault::Halted { call, kept: None })
    );
}
