ghost use Rattle.std.specs.Prelude.{◌≡◌, ◌≤◌, ◌++◌, ◌∷◌, [], Some, OnOk, IfErr};
ghost use Rattle.pcl_base.specs.Faults.{Rose};
ghost use Rattle.pcl_base.specs.declared.trace.Call.{Call as CallKind};
ghost use Rattle.pcl_base.specs.declared.reply.Reply.TheVariants.{Refused};
ghost use Rattle.pcl_base.specs.declared.reply.Reason.TheVariants.{NoNode};
ghost use Rattle.run_rules.specs.Disk.{Disk};
ghost use Rattle.disk_model.specs.Disk.{HasSizes};
ghost use Rattle.node_rules.specs.NodeState.{number_of};
ghost use Rattle.frame_rules.specs.Frames.{IsFrame, step_of};
ghost use Rattle.frame_rules.specs.WrittenFrames.{step_frames};
ghost use Rattle.node_frames.specs.Seen.{frame_in};
ghost use Rattle.node_parts.specs.declared.fault.StepFault.TheVariants.{NoMemory as no_memory};
ghost use Rattle.page_owner.specs.Carry.{halted_by};
ghost use Rattle.serving_parts.specs.Sides.{Tells, store_of, outs_of};
ghost use Rattle.serving_parts.specs.Works.{Gave};
ghost use Rattle.serving_parts.specs.Worked.{Worked};

use disk_model::Storage;
use node_core::Node;
use node_frames::{Frame, encode_differs, encode_halt};
use node_parts::{Outputs, StepFault};
use pcl_base::{Halt, NodeNo, Reason, Reply, Sink};
use serving_parts::{End, asked_of, write_last, write_step};
use std::alloc::Global;

/// The step that a frame asks of the node. Where its line names another node, the reply is a refusal, and
/// node and storage stay.
fn work<S: Storage>(
    me: NodeNo,
    frame: Frame,
    node: &mut Node,
    s: &mut S,
    out: &mut Outputs,
) -> Result<(), StepFault>
    requires number { number_of node.old ≡ me }
    requires frame { IsFrame node.old.home.config me (frame_in frame) }
    requires empty { (out.old.replies ≡ []) × (out.old.sends ≡ []) }
    requires sizes { HasSizes node.old.home.config (S.pages s.old) (S.logs s.old) (S.rooms s.old) }
    ensures worked { (d : Disk) → Tells (store_of (S.pages s.old) (S.logs s.old) (S.stops s.old) (S.failing s.old) (S.faults s.old)) d → Worked me node.old d (step_of me (frame_in frame)) (step_frames out.new.replies out.new.sends) node.new (store_of (S.pages s.old) (S.logs s.old) (S.stops s.old) (S.failing s.old) (S.faults s.old)) (store_of (S.pages s.new) (S.logs s.new) (S.stops s.new) (S.failing s.new) (S.faults s.new)) result }
    ensures config { node.new.home.config ≡ node.old.home.config }
    ensures number { number_of node.new ≡ number_of node.old }
    ensures sizes { HasSizes node.old.home.config (S.pages s.new) (S.logs s.new) (S.rooms s.new) }
    ensures counts { (k : CallKind) → S.faults s.old k ≤ S.faults s.new k }
    ensures cause { (k : CallKind) → halted_by result ≡ Some k → Rose (S.faults s.old k) (S.faults s.new k) }
{
    match asked_of(me, frame) {
        Some(event) => node.step(&event, s, out),
        None => refuse(out),
    }
}

/// The reply to a line that names another node.
fn refuse(out: &mut Outputs) -> Result<(), StepFault>
    ensures replies { OnOk result (out.new.replies ≡ out.old.replies ++ Refused NoNode ∷ []) }
    ensures sends { OnOk result (out.new.sends ≡ out.old.sends) }
    ensures fault { IfErr result (λ e. e ≡ no_memory) }
{
    match out.reserve(1, 0) {
        Err(_) => Err(StepFault::NoMemory),
        Ok(()) => {
            out.reply(Reply::Refused {
                reason: Reason::NoNode,
            });
            Ok(())
        }
    }
}

/// The step that a frame asks of the node, and the frames that it gives. After an end the node may only be
/// lost.
pub(crate) fn step_on<O: Sink, S: Storage>(
    alloc: Global,
    me: NodeNo,
    frame: Frame,
    node: &mut Node,
    output: &mut O,
    storage: &mut S,
) -> Result<(), End>
    requires number { number_of node.old ≡ me }
    requires frame { IsFrame node.old.home.config me (frame_in frame) }
    requires sizes { HasSizes node.old.home.config (S.pages storage.old) (S.logs storage.old) (S.rooms storage.old) }
    ensures gave { Gave me node.old (step_of me (frame_in frame)) node.new (outs_of (O.written output.old) (O.faults output.old) (store_of (S.pages storage.old) (S.logs storage.old) (S.stops storage.old) (S.failing storage.old) (S.faults storage.old))) (outs_of (O.written output.new) (O.faults output.new) (store_of (S.pages storage.new) (S.logs storage.new) (S.stops storage.new) (S.failing storage.new) (S.faults storage.new))) result }
    ensures config { node.new.home.config ≡ node.old.home.config }
    ensures number { number_of node.new ≡ number_of node.old }
    ensures sizes { HasSizes node.old.home.config (S.pages storage.new) (S.logs storage.new) (S.rooms storage.new) }
{
    let mut out = Outputs::open(alloc);
    match work(me, frame, node, storage, &mut out) {
        Ok(()) => write_step(alloc, &out, output),
        Err(StepFault::NoMemory) => Err(End::Memory),
        Err(StepFault::Halted { call, kept }) => {
            let made = encode_halt(alloc, Halt { call, kept });
            Err(write_last(made, 6, output))
        }
        Err(
            StepFault::Differs {
                page,
                expected,
                found,
            },
        ) => {
            let made = encode_differs(alloc, page, expected, found);
            Err(write_last(made, 10, output))
        }
    }
}
