ghost use Rattle.std.specs.Prelude.{◌≡◌, ℕ, List, Option, None};

use pcl_base::{Failed, Source};
use std::io::{Input, Read};

/// Standard input. It tells nothing of its bytes, and counts each failed read.
#[derive(Drop)]
pub struct StdSource<I: Input> {
    reader: I::Reader,
    faults: u64,
}

impl<I: Input> StdSource<I> {
    /// Standard input over the runtime, with the count 0.
    pub fn new(rt: &I) -> StdSource<I>
        ensures { result.faults ≡ 0 }
    {
        StdSource {
            reader: rt.reader(),
            faults: 0,
        }
    }
}

impl<I: Input> Source for StdSource<I> {
    ghost left = { λ _. None };

    ghost faults = { λ s. s.faults };

    fn read(&mut self, out: &mut [u8]) -> Result<usize, Failed> {
        match self.reader.read(out) {
            Ok(count) => Ok(count),
            Err(_) => {
                self.faults = self.faults.saturating_add(1);
                Err(Failed)
            }
        }
    }
}
