ghost use Rattle.std.specs.Prelude.{◌≡◌, ◌<◌, ◌≤◌, length};
ghost use Rattle.serving_parts.specs.Frames.{IsTold, NextRead};

use node_frames::{Frame, FrameFault, InputFault, decode, read_frame};
use pcl_base::{Config, NodeNo, Source};
use std::alloc::Global;

/// Reads the next frame to node `me`, or none at the end of the input.
///
/// [`InputFault::Bad`] tells the first reason of docs/formats.md, bad frames. [`InputFault::Source`] comes
/// where the source failed, before the bytes that were read decided anything, and [`InputFault::NoMemory`]
/// where there is none for the frame.
pub fn next_frame<I: Source>(
    alloc: Global,
    config: &Config,
    me: NodeNo,
    input: &mut I,
) -> Result<Option<Frame>, InputFault>
    requires { me < config.now.nodes }
    ensures { NextRead config.now me (I.left input.old) (I.left input.new) (I.faults input.old) (I.faults input.new) result }
{
    let mut body = Vec::new(alloc);
    match read_frame(input, &mut body) {
        Err(fault) => Err(fault),
        Ok(false) => Ok(None),
        Ok(true) => told_by(alloc, config, me, body.as_slice()),
    }
}

/// The frame that a body is.
fn told_by(
    alloc: Global,
    config: &Config,
    me: NodeNo,
    body: &[u8],
) -> Result<Option<Frame>, InputFault>
    requires me { me < config.now.nodes }
    requires small { length body.now ≤ 134_217_728 }
    ensures { IsTold config.now me body.now result }
{
    match decode(alloc, config, me, body) {
        Ok(frame) => Ok(Some(frame)),
        Err(FrameFault::Bad { place, reason }) => Err(InputFault::Bad { place, reason }),
        Err(FrameFault::NoMemory) => Err(InputFault::NoMemory),
    }
}
