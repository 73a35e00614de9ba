ghost use Rattle.std.specs.Prelude.{None};

use super::*;
use disk_model::Storage;
use node_parts::{Outputs, Parts, StepFault};
use pcl_base::{Config, Failed, NoMemory, NodeNo, PageNo, Reply};
use std::alloc::Global;
use std::rt::HostRuntime;
use std::test::Fail;

/// The record of 37 bytes of a commit that made version 1 of page 0.
const LOG: &[u8; 37] =
    b"\x00\x00\x00\x25\x00\x00\x00\x00\x01\x00\x00\x00\x01\x00\x00\x00\x01\x00\x00\x00\x00\x00\x00\x00\x00\x00\x00\x00\x01\x00\x00\x00\x00\x00\x00\x00\x00";

/// This log, the version of the stored page 0, and how many bytes were cut. It tells nothing.
#[derive(Drop)]
struct Disk {
    version: u8,
    cut: u64,
}

impl Storage for Disk {
    ghost pages = { λ _. None };

    ghost logs = { λ _. None };

    ghost rooms = { λ _. None };

    ghost stops = { λ _. None };

    ghost failing = { λ _. None };

    ghost faults = { λ _ _. 0 };

    fn room(&mut self, _node: NodeNo, _bytes: u64) -> Result<(), NoMemory> {
        Ok(())
    }

    fn read_page(&mut self, _by: NodeNo, _page: PageNo, out: &mut [u8]) -> Result<(), Failed> {
        for (place, byte) in out.iter_mut().enumerate() {
            *byte = match place {
                7 => 1,
                15 => self.version,
                _ => 0,
            };
        }
        Ok(())
    }

    fn log_len(&mut self, _by: NodeNo, _node: NodeNo) -> Result<u64, Failed> {
        Ok(37)
    }

    fn read_log(
        &mut self,
        _by: NodeNo,
        _node: NodeNo,
        from: u64,
        out: &mut [u8],
    ) -> Result<(), Failed> {
        let from = from as usize;
        for (place, byte) in out.iter_mut().enumerate() {
            *byte = LOG.get(from.saturating_add(place)).copied().unwrap_or(0);
        }
        Ok(())
    }

    fn write_page(&mut self, _by: NodeNo, _page: PageNo, _bytes: &[u8]) -> Result<(), Failed> {
        Ok(())
    }

    fn force(&mut self, _node: NodeNo, _bytes: &[u8]) -> Result<(), Failed> {
        Ok(())
    }

    fn trim_log(&mut self, _node: NodeNo, _keep: u64) -> Result<(), Failed> {
        Ok(())
    }

    fn cut_log(&mut self, _node: NodeNo, count: u64) -> Result<(), Failed> {
        self.cut = count;
        Ok(())
    }
}

/// What a node replies that cuts this log, and how many bytes it cuts.
fn cuts(alloc: Global, version: u8) -> Result<(Outputs, u64), StepFault> {
    let config = Config::new(1, 2, 8, 2).unwrap();
    let mut disk = Disk { version, cut: 0 };
    let mut out = Outputs::open(alloc);
    let parts = Parts::first(alloc, &config, 0)?;
    let done = cut(&parts, &mut disk, &mut out);
    parts.close();
    done?;
    Ok((out, disk.cut))
}

/// With ample memory a record stays in the log until its page is on disk.
#[test]
fn a_record_is_cut_once_its_page_is_on_disk(rt: HostRuntime) -> Result<(), Fail> {
    let early = cuts(rt.alloc(), 0)?;
    assert_eq!(rt; early.0.replies(), [Reply::Cut { count: 0 }].as_slice());
    let late = cuts(rt.alloc(), 1)?;
    assert_eq!(rt; late.0.replies(), [Reply::Cut { count: 37 }].as_slice());
    assert_eq!(rt; (early.1, late.1), (0, 37));
    Ok(())
}
