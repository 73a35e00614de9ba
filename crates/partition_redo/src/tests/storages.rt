//! Storages of the tests, which tell nothing.

ghost use Rattle.std.specs.Prelude.{ℕ, None};
ghost use Rattle.disk_model.specs.Disk.{Pages, Logs, Rooms};
ghost use Rattle.disk_model.specs.Stops.{Stops, Failing};

use disk_model::Storage;
use pcl_base::{Failed, NoMemory, NodeNo, PageNo};

/// The length of each record in a long log.
const RECORD: u64 = 4_125;

/// The bytes of that record that aren't zero, by their place: page 0 at version 1.
const FIELDS: [(u64, u8); 6] = [(2, 0x10), (3, 0x1d), (8, 1), (12, 1), (16, 1), (28, 1)];

/// Two pages and three logs. It tells nothing.
#[derive(Drop)]
pub(crate) struct Small {
    pages: [[u8; 24]; 2],
    logs: [&'static [u8]; 3],
    pub(crate) writes: u32,
}

impl Storage for Small {
    ghost pages = { λ _. None };

    ghost logs = { λ _. None };

    ghost rooms = { λ _. None };

    ghost stops = { λ _. None };

    ghost failing = { λ _. None };

    ghost faults = { λ _ _. 0 };

    fn room(&mut self, _node: NodeNo, _bytes: u64) -> Result<(), NoMemory> {
        Ok(())
    }

    fn read_page(&mut self, _by: NodeNo, page: PageNo, out: &mut [u8]) -> Result<(), Failed> {
        let stored = self.pages.get(page as usize).copied().unwrap_or([0; 24]);
        for (place, byte) in out.iter_mut().enumerate() {
            *byte = stored.get(place).copied().unwrap_or(0);
        }
        Ok(())
    }

    fn log_len(&mut self, _by: NodeNo, node: NodeNo) -> Result<u64, Failed> {
        Ok(self.log(node).len() as u64)
    }

    fn read_log(
        &mut self,
        _by: NodeNo,
        node: NodeNo,
        from: u64,
        out: &mut [u8],
    ) -> Result<(), Failed> {
        let log = self.log(node);
        let from = from as usize;
        for (place, byte) in out.iter_mut().enumerate() {
            *byte = log.get(from.saturating_add(place)).copied().unwrap_or(0);
        }
        Ok(())
    }

    fn write_page(&mut self, _by: NodeNo, page: PageNo, bytes: &[u8]) -> Result<(), Failed> {
        self.writes = self.writes.saturating_add(1);
        if let Some(stored) = self.pages.get_mut(page as usize) {
            for (place, byte) in stored.iter_mut().enumerate() {
                *byte = bytes.get(place).copied().unwrap_or(0);
            }
        }
        Ok(())
    }

    fn force(&mut self, _node: NodeNo, _bytes: &[u8]) -> Result<(), Failed> {
        Ok(())
    }

    fn trim_log(&mut self, _node: NodeNo, _keep: u64) -> Result<(), Failed> {
        Ok(())
    }

    fn cut_log(&mut self, _node: NodeNo, _count: u64) -> Result<(), Failed> {
        Ok(())
    }
}

impl Small {
    /// Zero pages and these logs.
    pub(crate) fn open(logs: [&'static [u8]; 3]) -> Small {
        Small {
            pages: [[0; 24]; 2],
            logs,
            writes: 0,
        }
    }

    /// The log of a node.
    fn log(&self, node: NodeNo) -> &'static [u8] {
        self.logs.get(node as usize).copied().unwrap_or(b"")
    }

    /// The first stored page.
    pub(crate) fn first(&self) -> [u8; 24] {
        self.pages.first().copied().unwrap_or([0; 24])
    }
}

/// A log of 12,375,000,000 bytes: the same record 3,000,000 times. It tells nothing.
#[derive(Drop)]
pub(crate) struct Long;

impl Storage for Long {
    ghost pages = { λ _. None };

    ghost logs = { λ _. None };

    ghost rooms = { λ _. None };

    ghost stops = { λ _. None };

    ghost failing = { λ _. None };

    ghost faults = { λ _ _. 0 };

    fn room(&mut self, _node: NodeNo, _bytes: u64) -> Result<(), NoMemory> {
        Ok(())
    }

    fn read_page(&mut self, _by: NodeNo, _page: PageNo, out: &mut [u8]) -> Result<(), Failed> {
        out.fill(0);
        Ok(())
    }

    fn log_len(&mut self, _by: NodeNo, _node: NodeNo) -> Result<u64, Failed> {
        Ok(3_000_000 * RECORD)
    }

    fn read_log(
        &mut self,
        _by: NodeNo,
        _node: NodeNo,
        from: u64,
        out: &mut [u8],
    ) -> Result<(), Failed> {
        out.fill(0);
        let start = from % RECORD;
        for (place, byte) in FIELDS {
            let near = place.wrapping_sub(start);
            let next = place.saturating_add(RECORD).saturating_sub(start);
            for at in [near, next] {
                if let Some(slot) = out.get_mut(at as usize) {
                    *slot = byte;
                }
            }
        }
        Ok(())
    }

    fn write_page(&mut self, _by: NodeNo, _page: PageNo, _bytes: &[u8]) -> Result<(), Failed> {
        Ok(())
    }

    fn force(&mut self, _node: NodeNo, _bytes: &[u8]) -> Result<(), Failed> {
        Ok(())
    }

    fn trim_log(&mut self, _node: NodeNo, _keep: u64) -> Result<(), Failed> {
        Ok(())
    }

    fn cut_log(&mut self, _node: NodeNo, _count: u64) -> Result<(), Failed> {
        Ok(())
    }
}
