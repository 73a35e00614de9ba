ghost use Rattle.std.specs.Prelude.{None};
ghost use Rattle.node_parts.specs.State.{AreParts};

use super::*;
use authority_map::View;
use disk_model::Storage;
use node_parts::Parts;
use pcl_base::{Config, Failed, NoMemory, NodeNo, PageNo};
use std::alloc::Global;
use std::rt::HostRuntime;

/// A fresh storage that tells nothing and counts its calls.
#[derive(Drop)]
struct Counted {
    pages: u32,
    logs: u32,
    changes: u32,
}

impl Storage for Counted {
    ghost pages = { λ _. None };

    ghost logs = { λ _. None };

    ghost rooms = { λ _. None };

    ghost stops = { λ _. None };

    ghost failing = { λ _. None };

    ghost faults = { λ _ _. 0 };

    fn room(&mut self, _node: NodeNo, _bytes: u64) -> Result<(), NoMemory> {
        Ok(())
    }

    fn read_page(&mut self, _by: NodeNo, _page: PageNo, out: &mut [u8]) -> Result<(), Failed> {
        self.pages = self.pages.saturating_add(1);
        out.fill(0);
        Ok(())
    }

    fn log_len(&mut self, _by: NodeNo, _node: NodeNo) -> Result<u64, Failed> {
        self.logs = self.logs.saturating_add(1);
        Ok(0)
    }

    fn read_log(
        &mut self,
        _by: NodeNo,
        _node: NodeNo,
        _from: u64,
        out: &mut [u8],
    ) -> Result<(), Failed> {
        out.fill(0);
        Ok(())
    }

    fn write_page(&mut self, _by: NodeNo, _page: PageNo, _bytes: &[u8]) -> Result<(), Failed> {
        self.changes = self.changes.saturating_add(1);
        Ok(())
    }

    fn force(&mut self, _node: NodeNo, _bytes: &[u8]) -> Result<(), Failed> {
        self.changes = self.changes.saturating_add(1);
        Ok(())
    }

    fn trim_log(&mut self, _node: NodeNo, _keep: u64) -> Result<(), Failed> {
        self.changes = self.changes.saturating_add(1);
        Ok(())
    }

    fn cut_log(&mut self, _node: NodeNo, _count: u64) -> Result<(), Failed> {
        self.changes = self.changes.saturating_add(1);
        Ok(())
    }
}

/// What node 1 plans where node 0 leaves its partition to it.
fn planned(alloc: Global, parts: &Parts, live: bool, disk: &mut Counted) -> Option<InstallPlan>
    requires { AreParts parts.now }
{
    let config = parts.home.config();
    let first = View::first(alloc, config).ok()?;
    let live = Vec::from_slice(alloc, &[live, true]).ok()?;
    let owners = Vec::from_slice(alloc, &[1, 1]).ok()?;
    let view = first.next(alloc, config, &live, &owners).ok()?;
    plan_install(parts, &view, disk).ok()
}

/// What is planned for a partition, and whether it begins to be served.
fn told(plan: &InstallPlan, place: usize) -> Option<(NodeNo, Turnover, bool)> {
    plan.plans
        .get(place)
        .map(|(q, x)| (*q, x.turnover, x.begins))
}

/// The plans of both partitions where node 0 is live or lost, and the calls.
fn run(
    alloc: Global,
    config: &Config,
    live: bool,
    disk: &mut Counted,
) -> Option<[Option<(NodeNo, Turnover, bool)>; 2]> {
    if config.nodes() <= 1 {
        return None;
    }
    match Parts::first(alloc, config, 1) {
        Err(_) => None,
        Ok(parts) => {
            let plan = planned(alloc, &parts, live, disk);
            parts.close();
            let plan = plan?;
            Some([told(&plan, 0), told(&plan, 1)])
        }
    }
}

// With ample memory an install is planned. A partition that is taken from a lost node has its five
// pages read once; while the other node has still to report, nothing is read. Nothing is changed.
#[test]
fn an_install_is_planned(rt: HostRuntime) {
    let Ok(config) = Config::new(2, 9, 8, 4) else {
        assert!(rt; false);
        return;
    };
    let mut disk = Counted {
        pages: 0,
        logs: 0,
        changes: 0,
    };
    let waits = [
        Some((0, Turnover::Taken, false)),
        Some((1, Turnover::Stays, false)),
    ];
    assert_eq!(rt; run(rt.alloc(), &config, true, &mut disk), Some(waits));
    assert_eq!(rt; (disk.pages, disk.logs, disk.changes), (0, 0, 0));
    let served = [
        Some((0, Turnover::Taken, true)),
        Some((1, Turnover::Stays, false)),
    ];
    assert_eq!(rt; run(rt.alloc(), &config, false, &mut disk), Some(served));
    assert_eq!(rt; (disk.pages, disk.changes), (5, 0));
}
