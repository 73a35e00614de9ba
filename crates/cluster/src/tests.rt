use super::*;
use pcl_base::{Config, Event, Items, Reason, Reply, TxId};
use std::alloc::Global;
use std::rt::HostRuntime;
use std::test::Fail;

/// The first transaction of node 0.
fn first() -> TxId {
    TxId {
        node: 0,
        born: 1,
        serial: 1,
    }
}

/// Whether an entry of the trace has these replies.
fn replied(cluster: &Cluster, place: usize, replies: &[Reply]) -> bool {
    match cluster.trace().entries().get(place) {
        Some(entry) => entry.replies.as_slice() == replies,
        None => false,
    }
}

/// Node 0 reads a page that node 1 owns.
fn read_elsewhere(cluster: &mut Cluster) -> Result<(), ClusterFault> {
    cluster.step(&Event::Begin { node: 0 })?;
    cluster.step(&Event::Read {
        tx: first(),
        page: 1,
    })?;
    cluster.step(&Event::Deliver { from: 0, to: 1 })?;
    cluster.step(&Event::Deliver { from: 1, to: 0 })
}

// With ample memory a page of another node is asked for and read.
#[test]
fn a_page_of_another_node_is_read(rt: HostRuntime) -> Result<(), Fail> {
    let tx = first();
    let value = Reply::Value {
        tx,
        page: 1,
        version: 0,
        bytes: Items::of(vec![in rt.alloc(); 0u8; 8]?),
    };
    let config = Config::new(2, 4, 8, 4).unwrap();
    let mut cluster = Cluster::open(rt.alloc(), &config)?;
    let run = read_elsewhere(&mut cluster);
    let begun = replied(&cluster, 0, &[Reply::Begun { tx }]);
    let waits = replied(&cluster, 1, &[Reply::Waits { tx, page: 1 }]);
    let asked = replied(&cluster, 2, &[Reply::Taken]);
    let read = replied(&cluster, 3, &[Reply::Taken, value]);
    cluster.close();
    assert_eq!(rt; run, Ok(()));
    assert_eq!(rt; (begun, waits, asked, read), (true, true, true, true));
    Ok(())
}

/// Node 1 is lost, and node 0 goes on without it.
fn lose_one(alloc: Global, cluster: &mut Cluster) -> Result<(), ClusterFault> {
    cluster.step(&Event::Crash { node: 1 })?;
    let live = Items::of(Vec::from_array(alloc, [true, false])?);
    let owners = Items::of(Vec::from_array(alloc, [0u8, 0])?);
    cluster.step(&Event::View { live, owners })?;
    cluster.step(&Event::Install { node: 0 })
}

/// Both are lost and start again, and node 1 installs their view.
fn reopen(cluster: &mut Cluster) -> Result<(), ClusterFault> {
    cluster.step(&Event::Crash { node: 0 })?;
    cluster.step(&Event::Reopen)?;
    cluster.step(&Event::Install { node: 1 })?;
    cluster.step(&Event::Arm {
        node: 1,
        call: 1,
        kept: 0,
    })?;
    cluster.step(&Event::Deliver { from: 1, to: 0 })
}

// With ample memory nodes are lost, views are made and installed, and a stop is armed.
#[test]
fn nodes_are_lost_and_start_again(rt: HostRuntime) -> Result<(), Fail> {
    let config = Config::new(2, 2, 8, 4).unwrap();
    let mut cluster = Cluster::open(rt.alloc(), &config)?;
    let lost = lose_one(rt.alloc(), &mut cluster);
    let reopened = reopen(&mut cluster);
    let viewed = replied(&cluster, 1, &[Reply::Viewed { epoch: 2 }]);
    let served = [
        Reply::Installed { epoch: 2 },
        Reply::Serving { partition: 1 },
    ];
    let moved = replied(&cluster, 2, &served);
    let anew = replied(&cluster, 4, &[Reply::Reopened { epoch: 3 }]);
    let installed = replied(&cluster, 5, &[Reply::Installed { epoch: 3 }]);
    let armed = replied(&cluster, 6, &[Reply::Armed]);
    let reason = Reason::NotInView;
    let outside = replied(&cluster, 7, &[Reply::Refused { reason }]);
    cluster.close();
    assert_eq!(rt; (lost, reopened), (Ok(()), Ok(())));
    assert_eq!(rt; (viewed, moved, anew), (true, true, true));
    assert_eq!(rt; (installed, armed, outside), (true, true, true));
    Ok(())
}
