ghost use Rattle.std.specs.Prelude.{◌≡◌, ◌<◌, ◌^◌, ◌-◌, ℕ};
ghost use Rattle.disk_model.specs.Disk.{HasSizes};
ghost use Rattle.node_rules.specs.NodeState.{number_of};
ghost use Rattle.serving_parts.specs.Sides.{outs_of, sides_of, store_of};
ghost use Rattle.serving_parts.specs.Outcome.{Outcome, first_link};
ghost use Rattle.serving_parts.specs.Turns.{Ran};

use crate::turns::turn;
use disk_model::Storage;
use node_core::Node;
use pcl_base::{Config, NodeNo, Sink, Source};
use serving_parts::{End, end_at_limit};
use std::alloc::Global;

/// Serves node `me`, below N, over at most `limit` frames of the input, which is below the last u64: for each
/// frame one step on the storage, whose replies and messages go to the output as frames (docs/formats.md,
/// frames of node). The node starts in no view. A line that names another node is refused with `NoNode`, and
/// node and storage stay.
///
/// The statuses: 0 at the end of the input; 3 at a bad frame; 4 and 5 where the source or the sink failed; 6
/// where a call of the storage failed; 7 at a byte behind frame `limit`; 9 for want of memory; 10 where a page
/// has another number or version than it must. At 3, 6, 7 and 10 the last frame written has one line that
/// tells why. A sink that failed is called no more.
pub fn serve<I: Source, O: Sink, S: Storage>(
    alloc: Global,
    config: &Config,
    me: NodeNo,
    limit: u64,
    input: &mut I,
    output: &mut O,
    storage: &mut S,
) -> u8
    requires me { me < config.now.nodes }
    requires limit { limit < 2 ^ 64 - 1 }
    requires sizes { HasSizes config.now (S.pages storage.old) (S.logs storage.old) (S.rooms storage.old) }
    ensures { Outcome (first_link config.now me limit) (sides_of (I.left input.old) (I.faults input.old) (outs_of (O.written output.old) (O.faults output.old) (store_of (S.pages storage.old) (S.logs storage.old) (S.stops storage.old) (S.failing storage.old) (S.faults storage.old)))) (sides_of (I.left input.new) (I.faults input.new) (outs_of (O.written output.new) (O.faults output.new) (store_of (S.pages storage.new) (S.logs storage.new) (S.stops storage.new) (S.failing storage.new) (S.faults storage.new)))) result }
{
    match Node::start(alloc, config, me, 0) {
        Err(_) => End::Memory.status(),
        Ok(node) => serve_node(alloc, config, me, limit, node, input, output, storage).status(),
    }
}

/// The same of a node that has started, which is lost then.
fn serve_node<I: Source, O: Sink, S: Storage>(
    alloc: Global,
    config: &Config,
    me: NodeNo,
    limit: u64,
    node: Node,
    input: &mut I,
    output: &mut O,
    storage: &mut S,
) -> End
    requires me { me < config.now.nodes }
    requires limit { limit < 2 ^ 64 - 1 }
    requires config { node.home.config ≡ config.now }
    requires number { number_of node ≡ me }
    requires sizes { HasSizes config.now (S.pages storage.old) (S.logs storage.old) (S.rooms storage.old) }
    ensures { Ran (record { me = me; node = node; most = limit; number = 1 }) (sides_of (I.left input.old) (I.faults input.old) (outs_of (O.written output.old) (O.faults output.old) (store_of (S.pages storage.old) (S.logs storage.old) (S.stops storage.old) (S.failing storage.old) (S.faults storage.old)))) (sides_of (I.left input.new) (I.faults input.new) (outs_of (O.written output.new) (O.faults output.new) (store_of (S.pages storage.new) (S.logs storage.new) (S.stops storage.new) (S.failing storage.new) (S.faults storage.new)))) result }
{
    let mut node = node;
    let end = run(alloc, config, me, limit, &mut node, input, output, storage);
    node.lose();
    end
}

/// Serves frame after frame, until serving ends.
fn run<I: Source, O: Sink, S: Storage>(
    alloc: Global,
    config: &Config,
    me: NodeNo,
    limit: u64,
    node: &mut Node,
    input: &mut I,
    output: &mut O,
    storage: &mut S,
) -> End
    requires me { me < config.now.nodes }
    requires limit { limit < 2 ^ 64 - 1 }
    requires config { node.old.home.config ≡ config.now }
    requires number { number_of node.old ≡ me }
    requires sizes { HasSizes config.now (S.pages storage.old) (S.logs storage.old) (S.rooms storage.old) }
    ensures { Ran (record { me = me; node = node.old; most = limit; number = 1 }) (sides_of (I.left input.old) (I.faults input.old) (outs_of (O.written output.old) (O.faults output.old) (store_of (S.pages storage.old) (S.logs storage.old) (S.stops storage.old) (S.failing storage.old) (S.faults storage.old)))) (sides_of (I.left input.new) (I.faults input.new) (outs_of (O.written output.new) (O.faults output.new) (store_of (S.pages storage.new) (S.logs storage.new) (S.stops storage.new) (S.failing storage.new) (S.faults storage.new)))) result }
{
    let mut done = 0u64;
    while done < limit {
        match turn(alloc, config, me, done + 1, node, input, output, storage) {
            Err(end) => return end,
            Ok(()) => done += 1,
        }
    }
    end_at_limit(alloc, limit + 1, input, output)
}
