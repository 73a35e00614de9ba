ghost use Rattle.std.specs.Prelude.{ℕ, None};

use disk_model::Storage;
use pcl_base::{Failed, NoMemory, NodeNo, PageNo};

/// A storage that counts its calls and tells nothing. Each of its pages begins with the same number
/// and the same version, and its bytes are nines.
#[derive(Drop)]
pub(crate) struct Counter {
    pub(crate) number: u8,
    pub(crate) version: u8,
    pub(crate) reads: u32,
    pub(crate) writes: u32,
    /// The bytes that were forced.
    pub(crate) forced: usize,
}

impl Counter {
    /// No call was made.
    pub(crate) fn new(number: u8, version: u8) -> Counter {
        Counter {
            number,
            version,
            reads: 0,
            writes: 0,
            forced: 0,
        }
    }
}

impl Storage for Counter {
    ghost pages = { λ _. None };

    ghost logs = { λ _. None };

    ghost rooms = { λ _. None };

    ghost stops = { λ _. None };

    ghost failing = { λ _. None };

    ghost faults = { λ _ _. 0 };

    fn room(&mut self, _node: NodeNo, _bytes: u64) -> Result<(), NoMemory> {
        Ok(())
    }

    fn read_page(&mut self, _by: NodeNo, _page: PageNo, out: &mut [u8]) -> Result<(), Failed> {
        self.reads = self.reads.saturating_add(1);
        let mut stored = [9u8; 24];
        stored[..16].fill(0);
        stored[7] = self.number;
        stored[15] = self.version;
        if out.len() == 24 {
            out.copy_from_slice(&stored);
        }
        Ok(())
    }

    fn log_len(&mut self, _by: NodeNo, _node: NodeNo) -> Result<u64, Failed> {
        Ok(0)
    }

    fn read_log(
        &mut self,
        _by: NodeNo,
        _node: NodeNo,
        _from: u64,
        out: &mut [u8],
    ) -> Result<(), Failed> {
        out.fill(0);
        Ok(())
    }

    fn write_page(&mut self, _by: NodeNo, _page: PageNo, _bytes: &[u8]) -> Result<(), Failed> {
        self.writes = self.writes.saturating_add(1);
        Ok(())
    }

    fn force(&mut self, _node: NodeNo, bytes: &[u8]) -> Result<(), Failed> {
        self.forced = self.forced.saturating_add(bytes.len());
        Ok(())
    }

    fn trim_log(&mut self, _node: NodeNo, _keep: u64) -> Result<(), Failed> {
        Ok(())
    }

    fn cut_log(&mut self, _node: NodeNo, _count: u64) -> Result<(), Failed> {
        Ok(())
    }
}
