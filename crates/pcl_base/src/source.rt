ghost use Rattle.std.specs.Prelude.{◌≡◌, ℕ, ◌<◌, ◌≤◌, ◌↔◌, Option, Some, List, length, min, take, drop, IsTrue, IsErr, OnOk, OnErr};
ghost use Rattle.std.specs.Io.{ReadsAtMost};
ghost use Rattle.std.specs.Io.KnownBytes.{ReadConsumes};
ghost use Rattle.pcl_base.specs.Faults.{HasCause, one_more};
ghost use Rattle.pcl_base.specs.Ends.{is_due as due, given};

use crate::fault::Failed;
use std::marker::Model;

/// Where bytes come from.
pub trait Source {
    /// The bytes that are left, where the source tells them.
    ghost left: { Self → Option (List ℕ) };

    /// The count of faults. It never falls.
    ghost faults: { Self → ℕ };

    /// Moves the next `n` bytes of what is left to the front of `out` and answers `Ok(n)`;
    /// `Ok(0)` means the end of input. A failed call takes nothing and raises the count.
    fn read(&mut self, out: &mut [u8]) -> Result<usize, Failed>
        requires { 0 < length out.old }
        ensures most { ReadsAtMost result out.new }
        ensures bytes { ReadConsumes (left self.old) (left self.new) result out.new }
        ensures cause { HasCause (faults self.old) (faults self.new) result };
}

/// A source in memory. It gives a stated number of bytes a call at most, and stated calls fail.
#[derive(Debug, Drop)]
pub struct MemSource {
    bytes: Vec<u8>,
    place: usize,
    piece: usize,
    fail: Vec<u64>,
    calls: u64,
    faults: u64,
}

impl Model for MemSource {
    ghost use Rattle.std.specs.Prelude.{◌≤◌, drop, vec_len};
    ghost use Rattle.pcl_base.specs.Ends.{Giving};

    ghost Value = { Giving };

    ghost view = { λ s. record { left = drop s.place s.bytes.items; piece = s.piece; fail = s.fail.items; calls = s.calls; faults = s.faults } };

    ghost invariant = { λ s. (s.place ≤ vec_len s.bytes) × (1 ≤ s.piece) };
}

impl MemSource {
    /// A source of these bytes that gives at most `piece` of them a call. The calls whose numbers,
    /// counted from 1, stand in `fail` fail.
    pub fn new(bytes: Vec<u8>, piece: usize, fail: Vec<u64>) -> MemSource
        requires { 1 ≤ piece }
        ensures { result ≡ record { left = bytes.items; piece = piece; fail = fail.items; calls = 0; faults = 0 } }
    {
        MemSource {
            bytes,
            place: 0,
            piece,
            fail,
            calls: 0,
            faults: 0,
        }
    }
}

impl Source for MemSource {
    ghost left = { λ s. Some s.left };

    ghost faults = { λ s. s.faults };

    fn read(&mut self, out: &mut [u8]) -> Result<usize, Failed>
        requires { 0 < length out.old }
        ensures most { ReadsAtMost result out.new }
        ensures bytes { ReadConsumes (Some self.old.left) (Some self.new.left) result out.new }
        ensures cause { HasCause self.old.faults self.new.faults result }
        ensures fails { IsErr result ↔ IsTrue (due self.old.fail self.old.calls) }
        ensures ok { OnOk result (self.new ≡ record self.old { left = drop (given self.old (length out.old)) self.old.left; calls = one_more self.old.calls }) }
        ensures err { OnErr result (self.new ≡ record self.old { calls = one_more self.old.calls; faults = one_more self.old.faults }) }
    {
        let due = is_due(self.fail.as_slice(), self.calls);
        self.calls = self.calls.saturating_add(1);
        if due {
            self.faults = self.faults.saturating_add(1);
            return Err(Failed);
        }
        let count = give(&self.bytes[self.place..], self.piece, out);
        self.place += count;
        Ok(count)
    }
}

/// Moves the front of what is left into the front of `out`, at most `piece` bytes.
fn give(left: &[u8], piece: usize, out: &mut [u8]) -> usize
    ensures count { result ≡ min (min piece (length out.old)) (length left.now) }
    ensures moved { take result out.new ≡ take result left.now }
    ensures len { length out.new ≡ length out.old }
{
    let count = piece.min(out.len()).min(left.len());
    out[..count].copy_from_slice(&left[..count]);
    count
}

/// Whether the next call after so many is one of those that fail.
pub(crate) fn is_due(fail: &[u64], calls: u64) -> bool
    ensures { result ≡ due fail.now calls }
{
    fail.contains(&calls.saturating_add(1))
}
