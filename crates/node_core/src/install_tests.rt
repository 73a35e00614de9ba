ghost use Rattle.std.specs.Prelude.{◌≡◌, ◌≤◌, Some, IfOk, length};
ghost use Rattle.disk_model.specs.Disk.{HasSizes};
ghost use Rattle.disk_model.specs.Memory.{bytes_in, rooms_in};
ghost use Rattle.node_rules.specs.NodeState.{number_of};

use super::*;
use authority_map::View;
use disk_model::MemStorage;
use node_parts::{NodeEvent, Outputs, StepFault};
use pcl_base::{Body, Config, Items, Message, Reply, Report};
use std::alloc::Global;
use std::rt::HostRuntime;
use std::test::Fail;

/// View 2 of two nodes, in which node 0 owns both partitions, and node 1 is live or lost.
fn second(alloc: Global, config: &Config, live: bool) -> Result<View, StepFault>
    requires { config.now.nodes ≡ 2 }
    ensures { IfOk result (λ v. length v.live ≡ 2) }
{
    let first = View::first(alloc, config)?;
    let live = Vec::from_array(alloc, [true, live])?;
    let owners = Vec::from_array(alloc, [0u8, 0])?;
    match first.next(alloc, config, &live, &owners) {
        Ok(view) => Ok(view),
        Err(_) => Err(StepFault::NoMemory),
    }
}

/// Node 0 installs a view.
fn installs(
    node: &mut Node,
    view: View,
    s: &mut MemStorage,
    out: &mut Outputs,
) -> Result<(), StepFault>
    requires nodes { node.old.home.config.nodes ≡ 2 }
    requires number { number_of node.old ≡ 0 }
    requires view { length view.live ≡ 2 }
    requires sizes { HasSizes node.old.home.config (Some s.old.pages) (Some (bytes_in s.old.logs)) (Some (rooms_in s.old.logs)) }
    ensures config { node.new.home.config ≡ node.old.home.config }
    ensures number { number_of node.new ≡ 0 }
    ensures sizes { HasSizes node.old.home.config (Some s.new.pages) (Some (bytes_in s.new.logs)) (Some (rooms_in s.new.logs)) }
{
    if view.live(0) {
        return node.step(&NodeEvent::Install { view }, s, out);
    }
    Err(StepFault::NoMemory)
}

/// Node 0 gets a report of node 1 from this epoch, which lists nothing of partition 1.
fn reports(
    alloc: Global,
    node: &mut Node,
    epoch: u32,
    s: &mut MemStorage,
    out: &mut Outputs,
) -> Result<(), StepFault>
    requires nodes { node.old.home.config.nodes ≡ 2 }
    requires number { number_of node.old ≡ 0 }
    requires epoch { 1 ≤ epoch }
    requires sizes { HasSizes node.old.home.config (Some s.old.pages) (Some (bytes_in s.old.logs)) (Some (rooms_in s.old.logs)) }
{
    let body = Body::Report(Report {
        partition: 1,
        waits: Items::of(Vec::new(alloc)),
        locks: Items::of(Vec::new(alloc)),
        rights: Items::of(Vec::new(alloc)),
    });
    let message = Message { epoch, body };
    node.step(&NodeEvent::Deliver { from: 1, message }, s, out)
}

/// Both, one after the other, with a report of that epoch.
fn both(
    alloc: Global,
    node: &mut Node,
    view: View,
    epoch: u32,
    s: &mut MemStorage,
    out: &mut Outputs,
) -> Result<(), StepFault>
    requires nodes { node.old.home.config.nodes ≡ 2 }
    requires number { number_of node.old ≡ 0 }
    requires view { length view.live ≡ 2 }
    requires epoch { 1 ≤ epoch }
    requires sizes { HasSizes node.old.home.config (Some s.old.pages) (Some (bytes_in s.old.logs)) (Some (rooms_in s.old.logs)) }
{
    installs(node, view, s, out)?;
    reports(alloc, node, epoch, s, out)
}

/// What node 0 answers to it, over fresh storage, where node 1 is live or lost in the view.
#[tactic(auto, unfolding(node_rules::specs::NodeState::first_node, node_rules::specs::NodeState::open_home))]
fn answers(alloc: Global, live: bool, epoch: u32) -> Result<Outputs, StepFault>
    requires { 1 ≤ epoch }
{
    let config = Config::new(2, 9, 8, 2).unwrap();
    if config.nodes() != 2 {
        return Err(StepFault::NoMemory);
    }
    let view = second(alloc, &config, live)?;
    let mut s = MemStorage::open(alloc, &config)?;
    let mut out = Outputs::open(alloc);
    let mut node = Node::first(alloc, &config, 0)?;
    let done = both(alloc, &mut node, view, epoch, &mut s, &mut out);
    node.lose();
    match done {
        Ok(()) => Ok(out),
        Err(fault) => Err(fault),
    }
}

// A node that gets the partition of a lost one serves it at once, and drops what the lost one reports.
#[test]
fn a_lost_partition_is_served(rt: HostRuntime) -> Result<(), Fail> {
    let out = answers(rt.alloc(), false, 2)?;
    let replies = [
        Reply::Installed { epoch: 2 },
        Reply::Serving { partition: 1 },
        Reply::Dropped,
    ];
    assert_eq!(rt; out.replies(), replies.as_slice());
    assert_eq!(rt; out.sends().len(), 0);
    Ok(())
}

// A node that gets the partition of a live one serves it once that one has reported.
#[test]
fn a_report_is_awaited(rt: HostRuntime) -> Result<(), Fail> {
    let out = answers(rt.alloc(), true, 2)?;
    let replies = [
        Reply::Installed { epoch: 2 },
        Reply::Taken,
        Reply::Serving { partition: 1 },
    ];
    assert_eq!(rt; out.replies(), replies.as_slice());
    Ok(())
}

// A report from a later view is held.
#[test]
fn a_later_report_is_held(rt: HostRuntime) -> Result<(), Fail> {
    let out = answers(rt.alloc(), true, 3)?;
    let replies = [Reply::Installed { epoch: 2 }, Reply::Held];
    assert_eq!(rt; out.replies(), replies.as_slice());
    Ok(())
}
