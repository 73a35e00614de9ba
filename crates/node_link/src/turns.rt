ghost use Rattle.std.specs.Prelude.{◌≡◌, ◌<◌, ◌+◌, ℕ, suc};
ghost use Rattle.disk_model.specs.Disk.{HasSizes};
ghost use Rattle.node_rules.specs.NodeState.{number_of};
ghost use Rattle.serving_parts.specs.Sides.{outs_of, sides_of, store_of};
ghost use Rattle.serving_parts.specs.Turns.{Turned};

use crate::works::step_on;
use disk_model::Storage;
use node_core::Node;
use node_frames::{InputFault, encode_bad};
use pcl_base::{Config, NodeNo, Sink, Source};
use serving_parts::{End, next_frame, write_last};
use std::alloc::Global;

/// Reads the next frame, the one of this number, makes its step, and writes what it gives; or serving ends.
pub(crate) fn turn<I: Source, O: Sink, S: Storage>(
    alloc: Global,
    config: &Config,
    me: NodeNo,
    number: u64,
    node: &mut Node,
    input: &mut I,
    output: &mut O,
    storage: &mut S,
) -> Result<(), End>
    requires me { me < config.now.nodes }
    requires config { node.old.home.config ≡ config.now }
    requires number { number_of node.old ≡ me }
    requires sizes { HasSizes config.now (S.pages storage.old) (S.logs storage.old) (S.rooms storage.old) }
    ensures turned { (most : ℕ) → Turned (record { me = me; node = node.old; most = suc most; number = number }) (record { me = me; node = node.new; most = most; number = number + 1 }) (sides_of (I.left input.old) (I.faults input.old) (outs_of (O.written output.old) (O.faults output.old) (store_of (S.pages storage.old) (S.logs storage.old) (S.stops storage.old) (S.failing storage.old) (S.faults storage.old)))) (sides_of (I.left input.new) (I.faults input.new) (outs_of (O.written output.new) (O.faults output.new) (store_of (S.pages storage.new) (S.logs storage.new) (S.stops storage.new) (S.failing storage.new) (S.faults storage.new)))) result }
    ensures config { node.new.home.config ≡ node.old.home.config }
    ensures number { number_of node.new ≡ number_of node.old }
    ensures sizes { HasSizes config.now (S.pages storage.new) (S.logs storage.new) (S.rooms storage.new) }
{
    match next_frame(alloc, config, me, input) {
        Ok(Some(frame)) => step_on(alloc, me, frame, node, output, storage),
        Ok(None) => Err(End::Decided { status: 0 }),
        Err(InputFault::Bad { place, reason }) => {
            let made = encode_bad(alloc, number, place, reason);
            Err(write_last(made, 3, output))
        }
        Err(InputFault::Source) => Err(End::Source),
        Err(InputFault::NoMemory) => Err(End::Memory),
    }
}
