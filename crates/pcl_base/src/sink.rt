ghost use Rattle.std.specs.Prelude.{◌≡◌, ℕ, ◌<◌, ◌≤◌, ◌++◌, ◌||◌, ◌==◌, ◌↔◌, [], Option, Some, List, length, take, IsTrue, IsErr, IfOk, OnOk, OnErr};
ghost use Rattle.std.specs.Io.{WritesAtMost};
ghost use Rattle.std.specs.Io.KnownBytes.{WriteAppends};
ghost use Rattle.pcl_base.specs.Faults.{HasCause, one_more};
ghost use Rattle.pcl_base.specs.Ends.{is_due as due, taken};

use crate::fault::{Failed, NoMemory};
use crate::source::is_due;
use std::alloc::Global;
use std::marker::Model;

/// Where bytes go to.
pub trait Sink {
    /// The bytes that were written so far, where the sink tells them.
    ghost written: { Self → Option (List ℕ) };

    /// The count of faults. It never falls.
    ghost faults: { Self → ℕ };

    /// Appends the first `n` bytes of `piece`, at least one, and answers `Ok(n)`. A failed call
    /// appends nothing and raises the count.
    fn write(&mut self, piece: &[u8]) -> Result<usize, Failed>
        requires { 0 < length piece.now }
        ensures most { WritesAtMost result piece.now }
        ensures some { IfOk result (λ n. 0 < n) }
        ensures bytes { WriteAppends (written self.old) (written self.new) result piece.now }
        ensures cause { HasCause (faults self.old) (faults self.new) result };
}

/// A sink in memory. It has room for a stated number of bytes, takes a stated number of them a
/// call at most, and stated calls fail. A full one takes nothing, which is a fault.
#[derive(Debug, Drop)]
pub struct MemSink {
    bytes: Vec<u8>,
    capacity: usize,
    piece: usize,
    fail: Vec<u64>,
    calls: u64,
    faults: u64,
}

impl Model for MemSink {
    ghost use Rattle.std.specs.Prelude.{◌≤◌, vec_len, vec_capacity};
    ghost use Rattle.pcl_base.specs.Ends.{Taking};

    ghost Value = { Taking };

    ghost view = { λ s. record { written = s.bytes.items; capacity = s.capacity; piece = s.piece; fail = s.fail.items; calls = s.calls; faults = s.faults } };

    ghost invariant = { λ s. (vec_len s.bytes ≤ s.capacity) × (s.capacity ≤ vec_capacity s.bytes) × (1 ≤ s.piece) };
}

impl MemSink {
    /// An empty sink with room for `capacity` bytes that takes at most `piece` of them a call. The
    /// calls whose numbers, counted from 1, stand in `fail` fail.
    pub fn open(
        alloc: Global,
        capacity: usize,
        piece: usize,
        fail: Vec<u64>,
    ) -> Result<MemSink, NoMemory>
        requires { 1 ≤ piece }
        ensures { IfOk result (λ s. s ≡ record { written = []; capacity = capacity; piece = piece; fail = fail.items; calls = 0; faults = 0 }) }
    {
        Ok(MemSink {
            bytes: Vec::with_capacity(alloc, capacity)?,
            capacity,
            piece,
            fail,
            calls: 0,
            faults: 0,
        })
    }

    /// The bytes that were written so far.
    pub fn bytes(&self) -> &[u8]
        ensures { result.now ≡ self.now.written }
    {
        self.bytes.as_slice()
    }
}

impl Sink for MemSink {
    ghost written = { λ s. Some s.written };

    ghost faults = { λ s. s.faults };

    fn write(&mut self, piece: &[u8]) -> Result<usize, Failed>
        requires { 0 < length piece.now }
        ensures most { WritesAtMost result piece.now }
        ensures some { IfOk result (λ n. 0 < n) }
        ensures bytes { WriteAppends (Some self.old.written) (Some self.new.written) result piece.now }
        ensures cause { HasCause self.old.faults self.new.faults result }
        ensures fails { IsErr result ↔ IsTrue (due self.old.fail self.old.calls || (taken self.old (length piece.now) == 0)) }
        ensures ok { OnOk result (self.new ≡ record self.old { written = self.old.written ++ take (taken self.old (length piece.now)) piece.now; calls = one_more self.old.calls }) }
        ensures err { OnErr result (self.new ≡ record self.old { calls = one_more self.old.calls; faults = one_more self.old.faults }) }
    {
        let due = is_due(self.fail.as_slice(), self.calls);
        self.calls = self.calls.saturating_add(1);
        let count = self
            .piece
            .min(piece.len())
            .min(self.capacity - self.bytes.len());
        if due || count == 0 {
            self.faults = self.faults.saturating_add(1);
            return Err(Failed);
        }
        self.bytes.extend_from_slice(&piece[..count]).unwrap();
        Ok(count)
    }
}

#[cfg(test)]
mod tests {
    use super::*;
    use std::test::Fail;

    #[test]
    fn a_sink_takes_pieces_until_it_is_full(rt: HostRuntime) -> Result<(), Fail> {
        let alloc = rt.alloc();
        let mut sink = MemSink::open(alloc, 5, 3, vec![in alloc; 2]?)
            .ok()
            .ok_or("no memory")?;
        assert_eq!(rt; sink.write(b"abcd"), Ok(3));
        assert_eq!(rt; sink.write(b"de"), Err(Failed));
        assert_eq!(rt; sink.write(b"defg"), Ok(2));
        assert_eq!(rt; sink.write(b"fg"), Err(Failed));
        assert_eq!(rt; sink.bytes(), b"abcde".as_slice());
        Ok(())
    }
}
