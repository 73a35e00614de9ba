ghost use Rattle.std.specs.Prelude.{◌≡◌, ◌<◌, length, Some, IfOk, map, slice_set};
ghost use Rattle.std.specs.List.{AllByRecursion};
ghost use Rattle.run_rules.specs.Views.{count_from};
ghost use Rattle.node_rules.specs.NodeState.{first_node, start_node};
ghost use Rattle.cluster.specs.Starts.{with_started};

use node_core::Node;
use pcl_base::{Config, NoMemory, NodeNo};
use std::alloc::Global;
use std::mem;

/// All nodes at view 1. `NoMemory` where memory is refused; the nodes made so far are lost then.
pub fn first_nodes(alloc: Global, config: &Config) -> Result<Vec<Option<Node>>, NoMemory>
    ensures { IfOk result (λ v. v.items ≡ map (λ n. Some (first_node config.now n)) (count_from 0 config.now.nodes)) }
{
    let count = config.nodes() as u8;
    let mut nodes = Vec::with_capacity(alloc, count as usize)?;
    for n in 0..count {
        match Node::first(alloc, config, n) {
            Ok(node) => nodes.push_reserved(Some(node)),
            Err(_) => {
                lose_all(nodes);
                return Err(NoMemory);
            }
        }
    }
    Ok(nodes)
}

/// These nodes, in no view and at an epoch. `NoMemory` where memory is refused; the nodes made so far are
/// lost then.
pub fn start_nodes(
    alloc: Global,
    config: &Config,
    epoch: u32,
    numbers: &[NodeNo],
) -> Result<Vec<Option<Node>>, NoMemory>
    requires { AllByRecursion (λ n. n < config.now.nodes) numbers.now }
    ensures { IfOk result (λ v. v.items ≡ map (λ n. Some (start_node config.now n epoch)) numbers.now) }
{
    let mut nodes = Vec::with_capacity(alloc, numbers.len())?;
    for n in numbers {
        match Node::start(alloc, config, *n, epoch) {
            Ok(node) => nodes.push_reserved(Some(node)),
            Err(_) => {
                lose_all(nodes);
                return Err(NoMemory);
            }
        }
    }
    Ok(nodes)
}

/// Puts started nodes at their numbers, one after the other. A node that is up at such a number is lost.
/// It takes no memory.
pub fn put_started(nodes: &mut [Option<Node>], numbers: &[NodeNo], started: Vec<Option<Node>>)
    requires numbers { AllByRecursion (λ n. n < length nodes.old) numbers.now }
    requires each { length started.items ≡ length numbers.now }
    ensures { nodes.new ≡ with_started nodes.old numbers.now started.items }
{
    let mut started = started;
    for i in 0..numbers.len() {
        let at = &mut started[i];
        put_at(nodes, numbers[i], at.take());
    }
    lose_all(started);
}

/// Another node, or none, takes the place of that of a number, which is lost. It takes no memory.
pub fn put_at(nodes: &mut [Option<Node>], n: NodeNo, node: Option<Node>)
    requires { n < length nodes.old }
    ensures { nodes.new ≡ slice_set nodes.old n node }
{
    lose_one(mem::replace(&mut nodes[n as usize], node));
}

/// A node that is there is lost.
fn lose_one(node: Option<Node>) {
    match node {
        Some(node) => node.lose(),
        None => {}
    }
}

/// The nodes of a list are lost. It takes no memory.
pub fn lose_all(nodes: Vec<Option<Node>>) {
    let mut nodes = nodes;
    while let Some(node) = nodes.pop() {
        lose_one(node);
    }
    nodes.destroy_empty();
}
