ghost use Rattle.std.specs.Prelude.{◌≡◌, ◌+◌, ◌≤◌, ◌++◌, [], length, take, drop, replicate, slice_range, Some, None, OnOk, IfOk, IfSome, is_some};
ghost use Rattle.disk_model.specs.Memory.{no_log};

use pcl_base::NoMemory;
use std::alloc::Global;
use std::marker::Model;

/// The bytes of a stored page.
#[derive(Debug, Drop)]
pub(crate) struct RawPage {
    bytes: Vec<u8>,
}

impl Model for RawPage {
    ghost use Rattle.std.specs.Prelude.{List, ℕ};

    ghost Value = { List ℕ };

    ghost view = { λ p. p.bytes.items };
}

impl RawPage {
    /// A page of `size` zero bytes.
    pub(crate) fn zeroed(alloc: Global, size: usize) -> Result<RawPage, NoMemory>
        ensures { IfOk result (λ p. p ≡ replicate size 0) }
    {
        Ok(RawPage {
            bytes: vec![in alloc; 0u8; size]?,
        })
    }

    /// An equal page in memory of its own.
    pub(crate) fn copy(&self) -> Result<RawPage, NoMemory>
        ensures { IfOk result (λ p. p ≡ self.now) }
    {
        Ok(RawPage {
            bytes: self.bytes.clone()?,
        })
    }

    /// The bytes.
    pub(crate) fn as_slice(&self) -> &[u8]
        ensures { result.now ≡ self.now }
    {
        self.bytes.as_slice()
    }

    /// Makes the page these bytes, which are as many as it has.
    pub(crate) fn write(&mut self, bytes: &[u8])
        requires { length bytes.now ≡ length self.old }
        ensures { self.new ≡ bytes.now }
    {
        self.bytes.as_mut_slice().copy_from_slice(bytes);
    }
}

/// The bytes of a log, and behind them its spare room.
#[derive(Debug, Drop)]
pub(crate) struct LogFile {
    bytes: Vec<u8>,
}

impl Model for LogFile {
    ghost use Rattle.std.specs.Prelude.{◌-◌, vec_len, vec_capacity};
    ghost use Rattle.disk_model.specs.Memory.{LogDisk};

    ghost Value = { LogDisk };

    ghost view = { λ l. record { bytes = l.bytes.items; room = vec_capacity l.bytes - vec_len l.bytes } };
}

impl LogFile {
    /// An empty log without room.
    pub(crate) fn new(alloc: Global) -> LogFile
        ensures { result ≡ no_log }
    {
        LogFile {
            bytes: Vec::new(alloc),
        }
    }

    /// The same log with at least its room.
    pub(crate) fn copy(&self) -> Result<LogFile, NoMemory>
        ensures bytes { IfOk result (λ l. l.bytes ≡ self.now.bytes) }
        ensures room { IfOk result (λ l. self.now.room ≤ l.room) }
    {
        let mut bytes = Vec::with_capacity(*self.bytes.allocator(), self.bytes.capacity())?;
        bytes.extend_from_slice(self.bytes.as_slice())?;
        Ok(LogFile { bytes })
    }

    /// The bytes of the log.
    pub(crate) fn as_slice(&self) -> &[u8]
        ensures { result.now ≡ self.now.bytes }
    {
        self.bytes.as_slice()
    }

    /// Makes the spare room at least `bytes`.
    pub(crate) fn reserve(&mut self, bytes: usize) -> Result<(), NoMemory>
        ensures made { OnOk result (bytes ≤ self.new.room) }
        ensures room { self.old.room ≤ self.new.room }
        ensures bytes { self.new.bytes ≡ self.old.bytes }
    {
        self.bytes.reserve(bytes)?;
        Ok(())
    }

    /// Appends bytes within the spare room, without memory.
    pub(crate) fn append(&mut self, bytes: &[u8])
        requires { length bytes.now ≤ self.old.room }
        ensures bytes { self.new.bytes ≡ self.old.bytes ++ bytes.now }
        ensures room { self.old.room ≤ self.new.room + length bytes.now }
    {
        self.bytes.extend_from_slice(bytes).unwrap();
    }

    /// Keeps the first `keep` bytes.
    pub(crate) fn trim(&mut self, keep: usize)
        ensures bytes { self.new.bytes ≡ take keep self.old.bytes }
        ensures room { self.old.room ≤ self.new.room }
    {
        self.bytes.truncate(keep);
    }

    /// Takes the first `count` bytes off.
    pub(crate) fn cut(&mut self, count: usize)
        requires { count ≤ length self.old.bytes }
        ensures bytes { self.new.bytes ≡ drop count self.old.bytes }
        ensures room { self.old.room ≤ self.new.room }
    {
        let kept = self.bytes.len() - count;
        self.bytes.copy_within(count.., 0);
        self.bytes.truncate(kept);
    }
}
