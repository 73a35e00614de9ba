ghost use Rattle.std.specs.Prelude.{None, IfOk};
ghost use Rattle.node_parts.specs.State.{AreParts};
ghost use Rattle.partition_steps.specs.Carried.{CanCarry};

use super::*;
use disk_model::Storage;
use install_plans::{Due, PartitionPlan, TableAfter, Turnover};
use lock_table::Table;
use node_parts::{Outgoing, Outputs, Parts, StepFault};
use pcl_base::{
    Body, Config, Decision, Failed, Items, Mode, NoMemory, NodeNo, PageNo, Reply, Report, TxId,
    Version,
};
use std::alloc::Global;
use std::rt::HostRuntime;

/// A storage that tells nothing, and how many pages were written.
#[derive(Drop)]
struct Disk {
    writes: u32,
}

impl Storage for Disk {
    ghost pages = { λ _. None };

    ghost logs = { λ _. None };

    ghost rooms = { λ _. None };

    ghost stops = { λ _. None };

    ghost failing = { λ _. None };

    ghost faults = { λ _ _. 0 };

    fn room(&mut self, _node: NodeNo, _bytes: u64) -> Result<(), NoMemory> {
        Ok(())
    }

    fn read_page(&mut self, _by: NodeNo, _page: PageNo, out: &mut [u8]) -> Result<(), Failed> {
        out.fill(0);
        Ok(())
    }

    fn log_len(&mut self, _by: NodeNo, _node: NodeNo) -> Result<u64, Failed> {
        Ok(0)
    }

    fn read_log(
        &mut self,
        _by: NodeNo,
        _node: NodeNo,
        _from: u64,
        out: &mut [u8],
    ) -> Result<(), Failed> {
        out.fill(0);
        Ok(())
    }

    fn write_page(&mut self, _by: NodeNo, _page: PageNo, _bytes: &[u8]) -> Result<(), Failed> {
        self.writes = self.writes.saturating_add(1);
        Ok(())
    }

    fn force(&mut self, _node: NodeNo, _bytes: &[u8]) -> Result<(), Failed> {
        Ok(())
    }

    fn trim_log(&mut self, _node: NodeNo, _keep: u64) -> Result<(), Failed> {
        Ok(())
    }

    fn cut_log(&mut self, _node: NodeNo, _count: u64) -> Result<(), Failed> {
        Ok(())
    }
}

/// A grant of page 0 at version 3 to a transaction of node 0, and a revocation of that node's right.
fn decisions(alloc: Global) -> Result<Vec<Due>, NoMemory> {
    let tx = TxId {
        node: 0,
        born: 1,
        serial: 1,
    };
    let mut dues = Vec::new(alloc);
    dues.push(Due {
        page: 0,
        version: 3,
        decision: Decision::Grant {
            tx,
            mode: Mode::Shared,
            right: true,
            have: None,
        },
    })?;
    dues.push(Due {
        page: 0,
        version: 3,
        decision: Decision::Revoke { node: 0 },
    })?;
    Ok(dues)
}

/// The plan by which a node gets partition 0, serves it and reports to node 0.
fn planned(alloc: Global, parts: &Parts) -> Result<PartitionPlan, NoMemory>
    requires { AreParts parts.now }
    ensures { IfOk result (CanCarry parts.now.home.config parts.now.me 0 None None) }
{
    let table = Table::open(alloc, parts.home.config(), 0, true)?;
    let report = Report {
        partition: 0,
        waits: Items::new(alloc),
        locks: Items::new(alloc),
        rights: Items::new(alloc),
    };
    Ok(PartitionPlan {
        turnover: Turnover::Taken,
        redo: None,
        table: TableAfter::Is(table),
        begins: true,
        decisions: decisions(alloc)?,
        report: Some((0, report)),
    })
}

/// Carries that plan out.
fn taken(
    alloc: Global,
    parts: &mut Parts,
    disk: &mut Disk,
    out: &mut Outputs,
) -> Result<(), StepFault>
    requires { AreParts parts.old }
{
    let plan = planned(alloc, parts)?;
    let needs = needs_of(&plan)?;
    let mut memory = take_memory(parts, needs, 1, out)?;
    carry(parts, 0, plan, &mut memory, disk, out)
}

/// To whom a message goes, and the version of a grant.
fn told(sent: Option<&Outgoing>) -> Option<(NodeNo, Option<Version>)> {
    match sent {
        None => None,
        Some(sent) => match &sent.message.body {
            Body::Grant(g) => Some((sent.to, Some(g.version))),
            _ => Some((sent.to, None)),
        },
    }
}

/// What node 1 replies and sends, and how many pages it writes.
fn run(alloc: Global, config: &Config) -> Option<(Outputs, u32)> {
    if config.nodes() != 2 {
        return None;
    }
    match Parts::first(alloc, config, 1) {
        Err(_) => None,
        Ok(parts) => {
            let mut parts = parts;
            let mut disk = Disk { writes: 0 };
            let mut out = Outputs::open(alloc);
            let done = taken(alloc, &mut parts, &mut disk, &mut out);
            parts.close();
            if done.is_err() {
                return None;
            }
            Some((out, disk.writes))
        }
    }
}

// With ample memory a plan is carried out: the partition is served, and the decisions and the report are
// sent. Nothing is redone.
#[test]
fn a_partition_is_taken(rt: HostRuntime) {
    let Ok(config) = Config::new(2, 9, 8, 4) else {
        assert!(rt; false);
        return;
    };
    let Some((out, writes)) = run(rt.alloc(), &config) else {
        assert!(rt; false);
        return;
    };
    assert_eq!(rt; writes, 0);
    let serving = [Reply::Serving { partition: 0 }];
    assert_eq!(rt; out.replies(), serving.as_slice());
    let sends = out.sends();
    assert_eq!(rt; sends.len(), 3);
    assert_eq!(rt; told(sends.get(0)), Some((0, Some(3))));
    assert_eq!(rt; told(sends.get(1)), Some((0, None)));
    assert_eq!(rt; told(sends.get(2)), Some((0, None)));
}

// What several plans take is what each of them takes.
#[test]
fn nothing_takes_nothing(rt: HostRuntime) {
    let none = Needs {
        images: 0,
        replies: 0,
        sends: 0,
    };
    assert_eq!(rt; needs_of_all(&[]), Ok(none));
}
