ghost use Rattle.std.specs.Prelude.{◌≡◌, ℕ, List, Option, None};

use pcl_base::{Failed, Sink};
use std::io;
use std::io::{Print, Write};

/// Standard output. It tells nothing of its bytes, and counts each write that fails or takes
/// nothing.
#[derive(Drop)]
pub struct StdSink<'a, P: Print> {
    rt: &'a P,
    faults: u64,
}

impl<'a, P: Print> StdSink<'a, P> {
    /// Standard output over the runtime, with the count 0.
    pub fn new(rt: &'a P) -> StdSink<'a, P>
        ensures { result.faults ≡ 0 }
    {
        StdSink { rt, faults: 0 }
    }
}

impl<P: Print> Sink for StdSink<'_, P> {
    ghost written = { λ _. None };

    ghost faults = { λ s. s.faults };

    fn write(&mut self, piece: &[u8]) -> Result<usize, Failed> {
        match io::writer(self.rt).write(piece) {
            Ok(count) if 0 < count => Ok(count),
            _ => {
                self.faults = self.faults.saturating_add(1);
                Err(Failed)
            }
        }
    }
}
