ghost use Rattle.std.specs.Prelude.{None, ◌≡◌, ◌<◌, false};
ghost use Rattle.pcl_base.specs.Limits.{Sizes};
ghost use Rattle.text_rules.specs.MessageBytes.{IsBody};
ghost use Rattle.page_owner.specs.Released.{is_report};
ghost use Rattle.node_parts.specs.State.{AreParts};

use super::*;
use disk_model::Storage;
use node_parts::{Outgoing, Outputs, Parts, StepFault};
use pcl_base::{
    Body, Change, Config, CopyPart, Failed, Grant, Items, Message, Mode, NoMemory, NodeNo, PageNo,
    Release, Reply, Request, ReturnRight, TxId, Version,
};
use std::alloc::Global;
use std::rt::HostRuntime;

/// A storage that tells nothing.
#[derive(Drop)]
struct Untold {
    writes: u32,
}

impl Storage for Untold {
    ghost pages = { λ _. None };

    ghost logs = { λ _. None };

    ghost rooms = { λ _. None };

    ghost stops = { λ _. None };

    ghost failing = { λ _. None };

    ghost faults = { λ _ _. 0 };

    fn room(&mut self, _node: NodeNo, _bytes: u64) -> Result<(), NoMemory> {
        Ok(())
    }

    fn read_page(&mut self, _by: NodeNo, _page: PageNo, out: &mut [u8]) -> Result<(), Failed> {
        out.fill(0);
        Ok(())
    }

    fn log_len(&mut self, _by: NodeNo, _node: NodeNo) -> Result<u64, Failed> {
        Ok(0)
    }

    fn read_log(
        &mut self,
        _by: NodeNo,
        _node: NodeNo,
        _from: u64,
        out: &mut [u8],
    ) -> Result<(), Failed> {
        out.fill(0);
        Ok(())
    }

    fn write_page(&mut self, _by: NodeNo, _page: PageNo, _bytes: &[u8]) -> Result<(), Failed> {
        self.writes = self.writes.saturating_add(1);
        Ok(())
    }

    fn force(&mut self, _node: NodeNo, _bytes: &[u8]) -> Result<(), Failed> {
        Ok(())
    }

    fn trim_log(&mut self, _node: NodeNo, _keep: u64) -> Result<(), Failed> {
        Ok(())
    }

    fn cut_log(&mut self, _node: NodeNo, _count: u64) -> Result<(), Failed> {
        Ok(())
    }
}

/// A message: its receiver, the serial of a granted transaction, its version, and the first byte of
/// an image. A revocation has serial 0.
type Told = (NodeNo, u32, Version, Option<u8>);

fn told(sent: Option<&Outgoing>) -> Option<Told> {
    match sent {
        None => None,
        Some(sent) => match &sent.message.body {
            Body::Revoke { .. } => Some((sent.to, 0, 0, None)),
            Body::Grant(g) => match &g.copy {
                CopyPart::Image(image) => {
                    Some((
                        sent.to,
                        g.tx.serial,
                        g.version,
                        image.as_slice().first().copied(),
                    ))
                }
                CopyPart::Current => Some((sent.to, g.tx.serial, g.version, None)),
                CopyPart::OnDisk => Some((sent.to, g.tx.serial, g.version, None)),
            },
            _ => None,
        },
    }
}

fn tx(serial: u32) -> TxId {
    TxId {
        node: 0,
        born: 1,
        serial,
    }
}

/// A request for page 3 arrives from node 0.
fn ask(
    parts: &mut Parts,
    serial: u32,
    mode: Mode,
    disk: &mut Untold,
    out: &mut Outputs,
) -> Result<(), StepFault>
    requires { AreParts parts.old }
    ensures { AreParts parts.new }
{
    if parts.home.config().pages() <= 3 {
        return Err(StepFault::NoMemory);
    }
    let request = Request {
        tx: tx(serial),
        page: 3,
        mode,
        have: None,
    };
    take_request(parts, &request, disk, out)
}

/// A release of page 3 arrives from node 0, with a change of sevens at version 1.
fn end(
    alloc: Global,
    parts: &mut Parts,
    serial: u32,
    disk: &mut Untold,
    out: &mut Outputs,
) -> Result<(), StepFault>
    requires { AreParts parts.old }
    ensures { AreParts parts.new }
{
    let image = Items::of(vec![in alloc; 7u8; 8]?);
    let config = parts.home.config();
    if config.pages() <= 3 || image.len() != config.size() as usize {
        return Err(StepFault::NoMemory);
    }
    let release = Release {
        tx: tx(serial),
        page: 3,
        change: Some(Change { version: 1, image }),
    };
    take_release(parts, &release, disk, out)
}

/// A writer of page 3, a release with its change, and a reader that gets the image.
fn written(
    alloc: Global,
    parts: &mut Parts,
    disk: &mut Untold,
    out: &mut Outputs,
) -> Result<(), StepFault>
    requires { AreParts parts.old }
{
    ask(parts, 1, Mode::Exclusive, disk, out)?;
    end(alloc, parts, 1, disk, out)?;
    ask(parts, 2, Mode::Shared, disk, out)
}

/// A reader of page 3, whose node gets the right, and a writer that waits until it comes back.
fn returned(
    alloc: Global,
    parts: &mut Parts,
    disk: &mut Untold,
    out: &mut Outputs,
) -> Result<(), StepFault>
    requires { AreParts parts.old }
{
    ask(parts, 1, Mode::Shared, disk, out)?;
    ask(parts, 2, Mode::Exclusive, disk, out)?;
    if parts.home.config().pages() <= 3 {
        return Err(StepFault::NoMemory);
    }
    let back = ReturnRight {
        page: 3,
        readers: Items::new(alloc),
    };
    take_return(parts, 0, &back, disk, out)
}

/// What node 1 sends in one of both cases, the number of its replies, and how many pages it writes.
fn run(alloc: Global, config: &Config, returns: bool) -> Option<([Option<Told>; 3], usize, u32)> {
    if config.nodes() != 2 {
        return None;
    }
    match Parts::first(alloc, config, 1) {
        Err(_) => None,
        Ok(parts) => {
            let mut parts = parts;
            let mut disk = Untold { writes: 0 };
            let mut out = Outputs::open(alloc);
            let done = if returns {
                returned(alloc, &mut parts, &mut disk, &mut out)
            } else {
                written(alloc, &mut parts, &mut disk, &mut out)
            };
            parts.close();
            if done.is_err() {
                return None;
            }
            let sends = out.sends();
            let words = [told(sends.get(0)), told(sends.get(1)), told(sends.get(2))];
            Some((words, out.replies().len(), disk.writes))
        }
    }
}

// A grant to another node names the version, and brings the image where the owner has it. A writer is
// granted once the right of a reader's node has come back. Each message is answered by one reply.
#[test]
fn messages_that_are_taken(rt: HostRuntime) {
    let Ok(config) = Config::new(2, 9, 8, 4) else {
        assert!(rt; false);
        return;
    };
    let image = [Some((0, 1, 0, None)), Some((0, 2, 1, Some(7))), None];
    assert_eq!(rt; run(rt.alloc(), &config, false), Some((image, 3, 0)));
    let back = [
        Some((0, 1, 0, None)),
        Some((0, 0, 0, None)),
        Some((0, 2, 0, None)),
    ];
    assert_eq!(rt; run(rt.alloc(), &config, true), Some((back, 3, 0)));
}

/// A message about page 2, which is another node's, arrives from node 0.
fn deliver(
    parts: &mut Parts,
    body: Body,
    disk: &mut Untold,
    out: &mut Outputs,
) -> Result<(), StepFault>
    requires parts { AreParts parts.old }
    requires body { (c : Sizes) → c.nodes ≡ 2 → 2 < c.pages → IsBody c body }
    requires other { is_report body ≡ false }
    ensures { AreParts parts.new }
{
    let config = parts.home.config();
    if config.nodes() != 2 || config.pages() <= 2 {
        return Err(StepFault::NoMemory);
    }
    let message = Message { epoch: 1, body };
    deliver_other(parts, 0, &message, disk, out)
}

/// A right for page 2 comes, for which nobody waits, and is revoked.
fn lent(parts: &mut Parts, disk: &mut Untold, out: &mut Outputs) -> Result<(), StepFault>
    requires { AreParts parts.old }
{
    let grant = Grant {
        tx: TxId {
            node: 1,
            born: 1,
            serial: 1,
        },
        page: 2,
        mode: Mode::Shared,
        right: true,
        version: 5,
        copy: CopyPart::Current,
    };
    deliver(parts, Body::Grant(grant), disk, out)?;
    deliver(parts, Body::Revoke { page: 2 }, disk, out)
}

/// To whom a right is given back.
fn given_back(sent: Option<&Outgoing>) -> Option<NodeNo> {
    match sent {
        None => None,
        Some(sent) => match &sent.message.body {
            Body::Return(_) => Some(sent.to),
            _ => None,
        },
    }
}

/// The replies of node 1 to these, and to whom it gives how many rights back.
fn answers(alloc: Global, config: &Config) -> Option<(bool, usize, Option<NodeNo>)> {
    if config.nodes() != 2 {
        return None;
    }
    match Parts::first(alloc, config, 1) {
        Err(_) => None,
        Ok(parts) => {
            let mut parts = parts;
            let mut disk = Untold { writes: 0 };
            let mut out = Outputs::open(alloc);
            let done = lent(&mut parts, &mut disk, &mut out);
            parts.close();
            if done.is_err() {
                return None;
            }
            let taken = out.replies() == [Reply::Taken, Reply::Taken].as_slice();
            let to = given_back(out.sends().first());
            Some((taken, out.sends().len(), to))
        }
    }
}

// A right that comes with a grant is kept, and given back to the node that revokes it.
#[test]
fn a_right_comes_and_goes(rt: HostRuntime) {
    let Ok(config) = Config::new(2, 9, 8, 4) else {
        assert!(rt; false);
        return;
    };
    assert_eq!(rt; answers(rt.alloc(), &config), Some((true, 1, Some(0))));
}
