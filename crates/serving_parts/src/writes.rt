ghost use Rattle.std.specs.Prelude.{◌≡◌, ◌≤◌, List, ℕ, flat_map, IfOk};
ghost use Rattle.frame_rules.specs.WrittenFrames.{sent_frame, step_frames};
ghost use Rattle.serving_parts.specs.Written.{Wrote, WroteLast};

use crate::end::End;
use node_frames::{encode_replies, encode_send, write_frame};
use node_parts::{Outgoing, Outputs};
use pcl_base::{NoMemory, Sink};
use std::alloc::Global;

/// Writes a frame, where there was memory for it.
fn write_made<O: Sink>(frame: Result<Vec<u8>, NoMemory>, output: &mut O) -> Result<(), End>
    ensures wrote { (text : List ℕ) → IfOk frame (λ bytes. bytes.items ≡ text) → Wrote (O.written output.old) (O.written output.new) (O.faults output.old) (O.faults output.new) text result }
    ensures later { O.faults output.old ≤ O.faults output.new }
{
    match frame {
        Err(_) => Err(End::Memory),
        Ok(bytes) => match write_frame(output, bytes.as_slice()) {
            Err(_) => Err(End::Sink),
            Ok(()) => Ok(()),
        },
    }
}

/// Writes the last frame, which was made with a status, and tells how serving ends by it: so, or at a sink
/// that failed, or for want of memory, which left no frame to write.
pub fn write_last<O: Sink>(frame: Result<Vec<u8>, NoMemory>, status: u8, output: &mut O) -> End
    ensures wrote { (text : List ℕ) → IfOk frame (λ bytes. bytes.items ≡ text) → WroteLast status (O.written output.old) (O.written output.new) (O.faults output.old) (O.faults output.new) text result }
    ensures later { O.faults output.old ≤ O.faults output.new }
{
    match write_made(frame, output) {
        Err(end) => end,
        Ok(()) => End::Decided { status },
    }
}

/// Writes messages in order, each in a frame of its own.
fn write_sends<O: Sink>(alloc: Global, sends: &[Outgoing], output: &mut O) -> Result<(), End>
    ensures wrote { Wrote (O.written output.old) (O.written output.new) (O.faults output.old) (O.faults output.new) (flat_map sent_frame sends.now) result }
    ensures later { O.faults output.old ≤ O.faults output.new }
{
    for sent in sends {
        match write_made(encode_send(alloc, sent.to, &sent.message), output) {
            Err(end) => return Err(end),
            Ok(()) => {}
        }
    }
    Ok(())
}

/// Writes what a step gave: the frame of its replies, and then its messages, each in a frame of its own.
///
/// [`End::Sink`] comes where the sink failed and [`End::Memory`] where there was none for a frame; a
/// beginning was written then.
pub fn write_step<O: Sink>(alloc: Global, out: &Outputs, output: &mut O) -> Result<(), End>
    ensures wrote { Wrote (O.written output.old) (O.written output.new) (O.faults output.old) (O.faults output.new) (step_frames out.now.replies out.now.sends) result }
    ensures later { O.faults output.old ≤ O.faults output.new }
{
    match write_made(encode_replies(alloc, out.replies()), output) {
        Err(end) => Err(end),
        Ok(()) => write_sends(alloc, out.sends(), output),
    }
}
