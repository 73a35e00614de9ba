ghost use Rattle.std.specs.Prelude.{◌≡◌, ◌≤◌, length, MatchResult};
ghost use Rattle.std.specs.Io.KnownBytes.{Appends};
ghost use Rattle.pcl_base.specs.Faults.{HasCause};
ghost use Rattle.replay_rules.specs.Outcome.{AppendsPart};

use pcl_base::{Failed, Sink};

/// Why a run ends before its input does.
#[derive(Clone, Copy, Debug, PartialEq, Eq)]
pub(crate) enum Fault {
    /// The source failed.
    Source,
    /// The sink failed.
    Sink,
    /// Want of memory.
    Memory,
}

/// Writes all of the bytes, in as many calls as it takes.
pub fn write_all<O: Sink>(output: &mut O, bytes: &[u8]) -> Result<(), Failed>
    ensures written { MatchResult result (λ _. Appends (O.written output.old) (O.written output.new) bytes.now) (λ _. AppendsPart (O.written output.old) (O.written output.new) bytes.now) }
    ensures cause { HasCause (O.faults output.old) (O.faults output.new) result }
{
    let mut done = 0;
    while done < bytes.len() {
        match output.write(&bytes[done..]) {
            Ok(count) => done += count,
            Err(failed) => return Err(failed),
        }
    }
    Ok(())
}
