ghost use Rattle.std.specs.Prelude.{Some};
ghost use Rattle.disk_model.specs.Disk.{HasSizes};
ghost use Rattle.disk_model.specs.Memory.{bytes_in, rooms_in};
ghost use Rattle.node_parts.specs.Events.{event_of};
ghost use Rattle.node_core.specs.Steps.{MayCome};

use super::*;
use disk_model::MemStorage;
use node_parts::{NodeEvent, Outputs, StepFault};
use pcl_base::{Config, Items, Reason, Reply, TxId};
use std::alloc::Global;
use std::rt::HostRuntime;
use std::test::Fail;

// A node of fresh storage is in a view, owns the partition of its number, and takes events.
#[test]
fn a_first_node_takes_events(rt: HostRuntime) -> Result<(), Fail> {
    let config = Config::new(2, 9, 8, 2)?;
    assert_eq!(rt; config.nodes(), 2);
    let node = Node::first(rt.alloc(), &config, 0)?;
    let seen = (node.epoch(), node.in_view());
    let table = node.table(0).is_some();
    let begin = node.refusal(&NodeEvent::Begin);
    let evict = node.refusal(&NodeEvent::Evict { page: 9 });
    let bound = node.most(&NodeEvent::Cut);
    let open = node.txs();
    let wait = node.waiting();
    let held = node.holding();
    node.lose();
    assert_eq!(rt; seen, (1, true));
    assert_eq!(rt; table, true);
    assert_eq!(rt; begin, None);
    assert_eq!(rt; evict, Some(Reason::NoPage));
    assert_eq!(rt; bound, 6);
    assert_eq!(rt; open?.len() + wait?.len() + held?.len(), 0);
    Ok(())
}

// A node that starts is in no view, and owns no partition.
#[test]
fn a_started_node_is_in_no_view(rt: HostRuntime) -> Result<(), Fail> {
    let config = Config::new(2, 9, 8, 2)?;
    assert_eq!(rt; config.nodes(), 2);
    let node = Node::start(rt.alloc(), &config, 0, 7)?;
    let seen = (node.epoch(), node.in_view());
    let table = node.table(0).is_some();
    let begin = node.refusal(&NodeEvent::Begin);
    node.lose();
    assert_eq!(rt; seen, (7, false));
    assert_eq!(rt; table, false);
    assert_eq!(rt; begin, Some(Reason::NotInView));
    Ok(())
}

/// The transaction of node 0 that was begun as this one.
fn tx(serial: u32) -> TxId {
    TxId {
        node: 0,
        born: 1,
        serial,
    }
}

/// One step of a node over a storage of its sizes, which it keeps.
fn takes(
    node: &mut Node,
    event: &NodeEvent,
    s: &mut MemStorage,
    out: &mut Outputs,
) -> Result<(), StepFault>
    requires come { MayCome node.old (event_of event.now) }
    requires sizes { HasSizes node.old.home.config (Some s.old.pages) (Some (bytes_in s.old.logs)) (Some (rooms_in s.old.logs)) }
    ensures sizes { HasSizes node.new.home.config (Some s.new.pages) (Some (bytes_in s.new.logs)) (Some (rooms_in s.new.logs)) }
{
    node.step(event, s, out)
}

/// A page is written and committed.
fn changes(
    alloc: Global,
    node: &mut Node,
    s: &mut MemStorage,
    out: &mut Outputs,
) -> Result<(), StepFault>
    requires sizes { HasSizes node.old.home.config (Some s.old.pages) (Some (bytes_in s.old.logs)) (Some (rooms_in s.old.logs)) }
    ensures sizes { HasSizes node.new.home.config (Some s.new.pages) (Some (bytes_in s.new.logs)) (Some (rooms_in s.new.logs)) }
{
    let (tx, page, place) = (tx(1), 0, 2);
    let bytes = Items::of(vec![in alloc; 7u8; 2]?);
    let write = NodeEvent::Write {
        tx,
        page,
        place,
        bytes,
    };
    takes(node, &NodeEvent::Begin, s, out)?;
    takes(node, &write, s, out)?;
    takes(node, &NodeEvent::Commit { tx }, s, out)
}

/// It is read by another transaction, which is given up.
fn looks(node: &mut Node, s: &mut MemStorage, out: &mut Outputs) -> Result<(), StepFault>
    requires sizes { HasSizes node.old.home.config (Some s.old.pages) (Some (bytes_in s.old.logs)) (Some (rooms_in s.old.logs)) }
    ensures sizes { HasSizes node.new.home.config (Some s.new.pages) (Some (bytes_in s.new.logs)) (Some (rooms_in s.new.logs)) }
{
    let (tx, page) = (tx(2), 0);
    takes(node, &NodeEvent::Begin, s, out)?;
    takes(node, &NodeEvent::Read { tx, page }, s, out)?;
    takes(node, &NodeEvent::Abort { tx }, s, out)
}

/// It is written to disk and leaves the buffer, and the log is cut.
fn tidies(node: &mut Node, s: &mut MemStorage, out: &mut Outputs) -> Result<(), StepFault>
    requires sizes { HasSizes node.old.home.config (Some s.old.pages) (Some (bytes_in s.old.logs)) (Some (rooms_in s.old.logs)) }
{
    let page = 0;
    takes(node, &NodeEvent::Flush { page }, s, out)?;
    takes(node, &NodeEvent::Evict { page }, s, out)?;
    takes(node, &NodeEvent::Cut, s, out)
}

/// All of that, one after the other.
fn works(
    alloc: Global,
    node: &mut Node,
    s: &mut MemStorage,
    out: &mut Outputs,
) -> Result<(), StepFault>
    requires sizes { HasSizes node.old.home.config (Some s.old.pages) (Some (bytes_in s.old.logs)) (Some (rooms_in s.old.logs)) }
{
    changes(alloc, node, s, out)?;
    looks(node, s, out)?;
    tidies(node, s, out)
}

/// The same at the only node of a database, whose storage is fresh.
fn worked(alloc: Global, out: &mut Outputs) -> Result<(), StepFault> {
    let config = Config::new(1, 2, 8, 4).unwrap();
    if config.nodes() != 1 {
        return Err(StepFault::NoMemory);
    }
    let mut s = MemStorage::open(alloc, &config)?;
    let mut node = Node::first(alloc, &config, 0)?;
    let done = works(alloc, &mut node, &mut s, out);
    node.lose();
    done
}

/// What is replied to it.
fn expected(alloc: Global) -> Result<Vec<Reply>, StepFault> {
    let (first, second) = (tx(1), tx(2));
    let seen = [0u8, 0, 7, 7, 0, 0, 0, 0];
    let bytes = Items::of(Vec::from_slice(alloc, seen.as_slice())?);
    let replies = [
        Reply::Begun { tx: first },
        Reply::Done {
            tx: first,
            page: 0,
            version: 0,
        },
        Reply::Committed { tx: first },
        Reply::Begun { tx: second },
        Reply::Value {
            tx: second,
            page: 0,
            version: 1,
            bytes,
        },
        Reply::Aborted { tx: second },
        Reply::Flushed,
        Reply::Evicted,
        Reply::Cut { count: 37 },
    ];
    Ok(Vec::from_array(alloc, replies)?)
}

// With ample memory each own event is worked off, and its replies stand behind those before. The record of the
// commit has 37 bytes.
#[test]
fn own_events_are_worked_off(rt: HostRuntime) -> Result<(), Fail> {
    let mut out = Outputs::open(rt.alloc());
    worked(rt.alloc(), &mut out)?;
    assert_eq!(rt; out.replies(), expected(rt.alloc())?.as_slice());
    assert_eq!(rt; out.sends().len(), 0);
    Ok(())
}
