ghost use Rattle.std.specs.Prelude.{ℕ, ◌-◌, ◌^◌, None};

use crate::force::force;
use crate::grant_tests::{image_to_write, is_good_image, write_of};
use crate::{Home, HomeFault};
use disk_model::{Call, Storage};
use pcl_base::{Config, Failed, NoMemory, NodeNo, PageNo, Reason, TxId};
use std::alloc::Global;
use std::rt::HostRuntime;
use std::test::Fail;

/// A log that tells nothing. A force keeps so many bytes and fails, and so does one of the calls that
/// ask its length.
#[derive(Drop)]
struct Log {
    len: u64,
    kept: u64,
    fails: u32,
    asked: u32,
    forced: u32,
}

impl Log {
    fn new(kept: u64, fails: u32) -> Log {
        Log {
            len: 5,
            kept,
            fails,
            asked: 0,
            forced: 0,
        }
    }
}

impl Storage for Log {
    ghost pages = { λ _. None };

    ghost logs = { λ _. None };

    ghost rooms = { λ _. None };

    ghost stops = { λ _. None };

    ghost failing = { λ _. None };

    ghost faults = { λ _ _. 2 ^ 64 - 1 };

    fn room(&mut self, _node: NodeNo, _bytes: u64) -> Result<(), NoMemory> {
        Ok(())
    }

    fn read_page(&mut self, _by: NodeNo, _page: PageNo, out: &mut [u8]) -> Result<(), Failed> {
        out.fill(0);
        Ok(())
    }

    fn log_len(&mut self, _by: NodeNo, _node: NodeNo) -> Result<u64, Failed> {
        self.asked = self.asked.saturating_add(1);
        if self.asked == self.fails {
            return Err(Failed);
        }
        Ok(self.len)
    }

    fn read_log(
        &mut self,
        _by: NodeNo,
        _node: NodeNo,
        _from: u64,
        out: &mut [u8],
    ) -> Result<(), Failed> {
        out.fill(0);
        Ok(())
    }

    fn write_page(&mut self, _by: NodeNo, _page: PageNo, _bytes: &[u8]) -> Result<(), Failed> {
        Ok(())
    }

    fn force(&mut self, _node: NodeNo, _bytes: &[u8]) -> Result<(), Failed> {
        self.forced = self.forced.saturating_add(1);
        self.len = self.len.saturating_add(self.kept);
        Err(Failed)
    }

    fn trim_log(&mut self, _node: NodeNo, _keep: u64) -> Result<(), Failed> {
        Ok(())
    }

    fn cut_log(&mut self, _node: NodeNo, _count: u64) -> Result<(), Failed> {
        Ok(())
    }
}

/// The fault of a force of three bytes, and how often the length was asked and bytes were forced.
fn forced(kept: u64, fails: u32) -> (Option<HomeFault>, u32, u32) {
    let mut log = Log::new(kept, fails);
    let fault = force(&mut log, 1, &[7, 8, 9]).err();
    (fault, log.asked, log.forced)
}

fn failed(call: Call, kept: bool) -> Option<HomeFault> {
    Some(HomeFault::Failed { call, kept })
}

// A force that failed after all bytes, and one after some of them; then the length can't be asked after
// the force, and before it.
#[test]
fn forces_that_fail(rt: HostRuntime) {
    assert_eq!(rt; forced(3, 0), (failed(Call::Force, true), 2, 1));
    assert_eq!(rt; forced(2, 0), (failed(Call::Force, false), 2, 1));
    assert_eq!(rt; forced(3, 2), (failed(Call::Force, false), 2, 1));
    assert_eq!(rt; forced(3, 1), (failed(Call::Log, false), 1, 0));
}

/// Commits a transaction: at how many pages its end is told.
fn committed(home: &mut Home, tx: TxId, log: &mut Log) -> Result<usize, HomeFault> {
    Ok(home.commit(tx, log)?.len())
}

#[test]
fn a_commit_without_writes_makes_no_call(rt: HostRuntime) -> Result<(), Fail> {
    let config = Config::new(2, 4, 8, 2)?;
    let mut home = Home::open(rt.alloc(), &config, 1, 1)?;
    let mut log = Log::new(0, 1);
    let tx = home.begin().unwrap_or(TxId::default());
    let first = committed(&mut home, tx, &mut log);
    let again = committed(&mut home, tx, &mut log);
    home.close();
    assert_eq!(rt; first, Ok(0));
    assert_eq!(rt; again, Err(HomeFault::Refused(Reason::NoTx)));
    assert_eq!(rt; (log.asked, log.forced), (0, 0));
    Ok(())
}

/// A write of page 4 is granted and committed: at how many pages its end is told.
fn written(alloc: Global, home: &mut Home, tx: TxId, log: &mut Log) -> Result<usize, HomeFault> {
    let _asked = home.access(&write_of(alloc, tx, 4)?, false, log)?;
    let granted = image_to_write(alloc, tx)?;
    if !is_good_image(home, &granted.copy) {
        return Err(HomeFault::Refused(Reason::BadRange));
    }
    let _done = home.on_grant(&granted, false, log)?;
    committed(home, tx, log)
}

/// The fault of a commit whose force keeps so many bytes, where this call for the length fails.
fn fault_of(rt: HostRuntime, kept: u64, fails: u32) -> Result<Option<HomeFault>, Fail> {
    let config = Config::new(2, 9, 8, 2)?;
    let mut home = Home::open(rt.alloc(), &config, 1, 1)?;
    let mut log = Log::new(kept, fails);
    let tx = home.begin().unwrap_or(TxId::default());
    let fault = written(rt.alloc(), &mut home, tx, &mut log).err();
    home.close();
    Ok(fault)
}

// The record has 36 bytes. A force that failed kept all of them, or not, or the length can't be asked
// after it.
#[test]
fn commits_whose_force_fails(rt: HostRuntime) -> Result<(), Fail> {
    assert_eq!(rt; fault_of(rt, 36, 0)?, failed(Call::Force, true));
    assert_eq!(rt; fault_of(rt, 35, 0)?, failed(Call::Force, false));
    assert_eq!(rt; fault_of(rt, 36, 2)?, failed(Call::Force, false));
    Ok(())
}
