ghost use Rattle.std.specs.Prelude.{◌≡◌, None, IfSome, length};
ghost use Rattle.node_parts.specs.State.{AreParts};

use super::*;
use authority_map::View;
use disk_model::Storage;
use node_looks::refusal;
use node_parts::{NodeEvent, Outputs, Parts, StepFault};
use pcl_base::{Config, Failed, Items, NoMemory, NodeNo, PageNo, Reply, Report};
use std::alloc::Global;
use std::rt::HostRuntime;

/// A fresh storage that tells nothing and counts what is read and changed.
#[derive(Drop)]
struct Counted {
    pages: u32,
    changes: u32,
}

impl Storage for Counted {
    ghost pages = { λ _. None };

    ghost logs = { λ _. None };

    ghost rooms = { λ _. None };

    ghost stops = { λ _. None };

    ghost failing = { λ _. None };

    ghost faults = { λ _ _. 0 };

    fn room(&mut self, _node: NodeNo, _bytes: u64) -> Result<(), NoMemory> {
        Ok(())
    }

    fn read_page(&mut self, _by: NodeNo, _page: PageNo, out: &mut [u8]) -> Result<(), Failed> {
        self.pages = self.pages.saturating_add(1);
        out.fill(0);
        Ok(())
    }

    fn log_len(&mut self, _by: NodeNo, _node: NodeNo) -> Result<u64, Failed> {
        Ok(0)
    }

    fn read_log(
        &mut self,
        _by: NodeNo,
        _node: NodeNo,
        _from: u64,
        out: &mut [u8],
    ) -> Result<(), Failed> {
        out.fill(0);
        Ok(())
    }

    fn write_page(&mut self, _by: NodeNo, _page: PageNo, _bytes: &[u8]) -> Result<(), Failed> {
        self.changes = self.changes.saturating_add(1);
        Ok(())
    }

    fn force(&mut self, _node: NodeNo, _bytes: &[u8]) -> Result<(), Failed> {
        self.changes = self.changes.saturating_add(1);
        Ok(())
    }

    fn trim_log(&mut self, _node: NodeNo, _keep: u64) -> Result<(), Failed> {
        self.changes = self.changes.saturating_add(1);
        Ok(())
    }

    fn cut_log(&mut self, _node: NodeNo, _count: u64) -> Result<(), Failed> {
        self.changes = self.changes.saturating_add(1);
        Ok(())
    }
}

/// The view in which node 0 has left its partition to node 1.
fn moved(alloc: Global, config: &Config) -> Option<View>
    ensures { IfSome result (λ v. length v.live ≡ config.now.nodes) }
{
    let first = View::first(alloc, config).ok()?;
    let live = Vec::from_slice(alloc, &[true, true]).ok()?;
    let owners = Vec::from_slice(alloc, &[1, 1]).ok()?;
    first.next(alloc, config, &live, &owners).ok()
}

/// Node 1 installs that view.
fn installs(parts: &mut Parts, s: &mut Counted, out: &mut Outputs) -> Result<(), StepFault>
    requires { AreParts parts.old }
    ensures { AreParts parts.new }
{
    let Some(view) = moved(parts.alloc, parts.home.config()) else {
        return Err(StepFault::NoMemory);
    };
    let event = NodeEvent::Install { view };
    if refusal(parts, &event).is_some() {
        return Err(StepFault::NoMemory);
    }
    match &event {
        NodeEvent::Install { view } => install(parts, view, s, out),
        _ => Err(StepFault::NoMemory),
    }
}

/// Node 1 installs that view, and takes an empty report of node 0 on partition 0.
fn turns(parts: &mut Parts, s: &mut Counted, out: &mut Outputs) -> Result<(), StepFault>
    requires { AreParts parts.old }
    ensures { AreParts parts.new }
{
    installs(parts, s, out)?;
    let alloc = parts.alloc;
    let report = Report {
        partition: 0,
        waits: Items::of(Vec::new(alloc)),
        locks: Items::of(Vec::new(alloc)),
        rights: Items::of(Vec::new(alloc)),
    };
    if parts.home.config().nodes() != 2 {
        return Err(StepFault::NoMemory);
    }
    take_report(parts, 0, &report, s, out)
}

/// The same from view 1 on, and the replies of both.
fn run(alloc: Global, config: &Config, s: &mut Counted) -> Option<Vec<Reply>> {
    if config.nodes() <= 1 {
        return None;
    }
    match Parts::first(alloc, config, 1) {
        Err(_) => None,
        Ok(mut parts) => {
            let mut out = Outputs::open(alloc);
            let done = turns(&mut parts, s, &mut out);
            parts.close();
            done.ok()?;
            let (replies, _sends) = out.into_parts();
            Some(replies)
        }
    }
}

// With ample memory a view is installed, and the last report that is missing lets the partition be served:
// its five pages are read, and nothing is changed.
#[test]
fn a_partition_is_served_after_the_last_report(rt: HostRuntime) {
    let Ok(config) = Config::new(2, 9, 8, 4) else {
        assert!(rt; false);
        return;
    };
    let mut disk = Counted {
        pages: 0,
        changes: 0,
    };
    let replies = run(rt.alloc(), &config, &mut disk);
    let Some(replies) = replies else {
        assert!(rt; false);
        return;
    };
    let wanted = [
        Reply::Installed { epoch: 2 },
        Reply::Taken,
        Reply::Serving { partition: 0 },
    ];
    assert!(rt; replies.as_slice() == wanted.as_slice());
    assert_eq!(rt; (disk.pages, disk.changes), (5, 0));
}
