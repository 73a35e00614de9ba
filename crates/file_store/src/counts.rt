ghost use Rattle.std.specs.Prelude.{◌≡◌, ℕ, ◌≤◌};
ghost use Rattle.pcl_base.specs.Faults.{Rose};
ghost use Rattle.pcl_base.specs.declared.trace.Call.{Call as Kind};
ghost use Rattle.file_store.specs.Counting.{count_of};

use pcl_base::{Call, Failed};

/// The counts of faults, one for each kind of call. Each stays at the last u64.
#[derive(Clone, Copy, Debug)]
pub(crate) struct Faults {
    read: u64,
    log: u64,
    write: u64,
    force: u64,
    trim: u64,
    cut: u64,
}

impl Faults {
    /// No fault yet.
    pub(crate) fn none() -> Faults
        ensures { (k : Kind) → count_of result k ≡ 0 }
    {
        Faults {
            read: 0,
            log: 0,
            write: 0,
            force: 0,
            trim: 0,
            cut: 0,
        }
    }

    /// What a failed call of a kind answers, once it is counted.
    #[tactic(auto, using(crate::proofs::CountLemmas::counts_later))]
    pub(crate) fn fail(&mut self, call: Call) -> Failed
        ensures later { (k : Kind) → count_of self.old k ≤ count_of self.new k }
        ensures rose { Rose (count_of self.old call) (count_of self.new call) }
    {
        match call {
            Call::Read => {
                self.read = one_more(self.read);
                Failed
            }
            Call::Log => {
                self.log = one_more(self.log);
                Failed
            }
            Call::Write => {
                self.write = one_more(self.write);
                Failed
            }
            Call::Force => {
                self.force = one_more(self.force);
                Failed
            }
            Call::Trim => {
                self.trim = one_more(self.trim);
                Failed
            }
            Call::Cut => {
                self.cut = one_more(self.cut);
                Failed
            }
        }
    }
}

/// One more, up to the last u64.
fn one_more(count: u64) -> u64
    ensures later { count ≤ result }
    ensures rose { Rose count result }
{
    if count == u64::MAX { count } else { count + 1 }
}
