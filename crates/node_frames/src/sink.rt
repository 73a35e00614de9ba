ghost use Rattle.std.specs.Prelude.{◌≡◌, ◌≤◌, length, MatchResult};
ghost use Rattle.std.specs.Io.KnownBytes.{Appends};
ghost use Rattle.pcl_base.specs.Faults.{HasCause};
ghost use Rattle.node_frames.specs.Written.{AppendsPart};

use pcl_base::{Failed, Sink};

/// Writes the bytes of a frame, in as many calls as it takes.
///
/// It answers [`Failed`] where the sink failed; then a beginning of the frame was written.
pub fn write_frame<O: Sink>(output: &mut O, frame: &[u8]) -> Result<(), Failed>
    ensures written { MatchResult result (λ _. Appends (O.written output.old) (O.written output.new) frame.now) (λ _. AppendsPart (O.written output.old) (O.written output.new) frame.now) }
    ensures cause { HasCause (O.faults output.old) (O.faults output.new) result }
{
    let mut done = 0;
    while done < frame.len() {
        match output.write(&frame[done..]) {
            Ok(count) => done += count,
            Err(failed) => return Err(failed),
        }
    }
    Ok(())
}
