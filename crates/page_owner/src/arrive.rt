ghost use Rattle.std.specs.Prelude.{◌≡◌, ◌≤◌, ◌<◌, ◌+◌, ◌++◌, ◌∷◌, [], ℕ, List, Option, Some, None, is_some, length, IfSome, IsSome, OnOk, OnErr, IfErr, Err};
ghost use Rattle.pcl_base.specs.Faults.{Rose};
ghost use Rattle.pcl_base.specs.declared.trace.Call.{Call as CallKind};
ghost use Rattle.pcl_base.specs.declared.reply.Reply.TheVariants.{Taken as taken};
ghost use Rattle.disk_model.specs.Disk.{HasSizes};
ghost use Rattle.redo_log.specs.Told.{NoneFails};
ghost use Rattle.node_rules.specs.NodeState.{table_of};
ghost use Rattle.node_rules.specs.DiskCalls.{DiskCall};
ghost use Rattle.node_rules.specs.Work.{Goes, reply};
ghost use Rattle.node_rules.specs.AccessRule.{image_of, on_revoke};
ghost use Rattle.node_rules.specs.NodeStep.{take_grant, take_revoke};
ghost use Rattle.home.specs.Grants.{IsGrantFault};
ghost use Rattle.node_parts.specs.declared.fault.StepFault.TheVariants.{NoMemory as no_memory};
ghost use Rattle.page_owner.specs.Carry.{SameNode, HasSame, halted_by, fault_of, IsTakeFault};
ghost use Rattle.node_parts.specs.Comes.{Comes, work_of};
ghost use Rattle.node_parts.specs.State.{AreParts, node_of};

use disk_model::Storage;
use home::HomeFault;
use node_parts::{Outputs, Parts, StepFault};
use pcl_base::{Body, Grant, Message, NodeNo, PageNo, Reply};

// Messages that are taken at the home of a transaction. Each answers `Taken` first.

/// A grant, which does nothing more where the node owns the page itself. Else the right that comes
/// with it is accepted, and where its transaction waits for it, the access is done and answered.
/// `NoMemory` leaves all as before.
pub fn take_grant<S: Storage>(
    parts: &mut Parts,
    g: &Grant,
    s: &mut S,
    out: &mut Outputs,
) -> Result<(), StepFault>
    requires parts { AreParts parts.old }
    requires page { g.now.page < parts.old.home.config.pages }
    requires image { IfSome (image_of g.now.copy) (λ b. length b ≡ parts.old.home.config.size) }
    requires sizes { HasSizes parts.old.home.config (S.pages s.old) (S.logs s.old) (S.rooms s.old) }
    ensures comes { (ps : List (List ℕ)) (cs : List DiskCall) → S.pages s.old ≡ Some ps → Comes (take_grant (table_of (node_of parts.old) g.now.page) g.now (reply taken (work_of (node_of parts.old) ps cs out.old))) result (work_of (node_of parts.new) ps cs out.new) }
    ensures parts { AreParts parts.new }
    ensures node { result ≡ Err no_memory → parts.new ≡ parts.old }
    ensures lists { result ≡ Err no_memory → HasSame out.old out.new }
    ensures same { SameNode parts.old.home parts.new.home }
    ensures fault { IfErr result IsTakeFault }
    ensures pages { S.pages s.new ≡ S.pages s.old }
    ensures logs { S.logs s.new ≡ S.logs s.old }
    ensures rooms { S.rooms s.new ≡ S.rooms s.old }
    ensures stops { S.stops s.new ≡ S.stops s.old }
    ensures calm { (l : List (Option ℕ)) → NoneFails (S.failing s.old) parts.old.me l → NoneFails (S.failing s.new) parts.old.me l }
    ensures quiet { (l : List (Option ℕ)) → NoneFails (S.failing s.old) parts.old.me l → halted_by result ≡ None }
    ensures counts { (k : CallKind) → S.faults s.old k ≤ S.faults s.new k }
    ensures cause { (k : CallKind) → halted_by result ≡ Some k → Rose (S.faults s.old k) (S.faults s.new k) }
{
    out.reserve(2, 0)?;
    if owns(parts, g.page) {
        out.reply(Reply::Taken);
        return Ok(());
    }
    match parts.home.on_grant(g, false, s) {
        Err(fault) => return Err(grant_fault(g.page, fault)),
        Ok(None) => {
            out.reply(Reply::Taken);
            return Ok(());
        }
        Ok(Some(reply)) => {
            out.reply(Reply::Taken);
            out.reply(reply);
            return Ok(());
        }
    }
}

/// A revocation: the right is spent where it is there, and the sender is told who still reads under
/// it. `NoMemory` leaves all as before.
pub fn take_revoke(
    parts: &mut Parts,
    from: NodeNo,
    page: PageNo,
    out: &mut Outputs,
) -> Result<(), StepFault>
    requires parts { AreParts parts.old }
    ensures comes { (ps : List (List ℕ)) (cs : List DiskCall) → Comes (Goes (take_revoke from (reply taken (work_of (node_of parts.old) ps cs out.old)) (on_revoke page parts.old.home))) result (work_of (node_of parts.new) ps cs out.new) }
    ensures parts { AreParts parts.new }
    ensures node { result ≡ Err no_memory → parts.new ≡ parts.old }
    ensures lists { result ≡ Err no_memory → HasSame out.old out.new }
    ensures same { SameNode parts.old.home parts.new.home }
    ensures fault { IfErr result (λ e. e ≡ no_memory) }
{
    out.reserve(1, 1)?;
    match parts.home.on_revoke(page) {
        None => {
            out.reply(Reply::Taken);
            Ok(())
        }
        Some(back) => {
            let epoch = parts.epoch;
            let body = Body::Return(back);
            out.reply(Reply::Taken);
            out.send(from, Message { epoch, body });
            Ok(())
        }
    }
}

/// Whether the node owns a page.
fn owns(parts: &Parts, page: PageNo) -> bool
    requires parts { AreParts parts.now }
    requires page { page < parts.now.home.config.pages }
    ensures { result ≡ is_some (table_of (node_of parts.now) page) }
{
    let q = parts.home.config().partition(page);
    parts.tables.at(q).is_some()
}

/// The fault of a step whose grant couldn't be taken.
fn grant_fault(page: PageNo, fault: HomeFault) -> StepFault
    requires { IsGrantFault page fault }
    ensures fault { result ≡ fault_of fault }
    ensures taking { IsTakeFault result }
{
    match fault {
        HomeFault::Failed { call, .. } => StepFault::Halted { call, kept: None },
        HomeFault::Differs {
            page,
            expected,
            found,
        } => StepFault::Differs {
            page,
            expected,
            found,
        },
        HomeFault::NoMemory => StepFault::NoMemory,
        HomeFault::Refused(_) => unreachable!(),
    }
}
