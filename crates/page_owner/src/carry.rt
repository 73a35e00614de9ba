ghost use Rattle.std.specs.Prelude.{◌≡◌, ◌≤◌, ◌<◌, ◌+◌, ◌++◌, ◌∷◌, [], ℕ, Bool, true, List, Option, Some, None, length, IfErr, OnOk, OnErr, Err};
ghost use Rattle.pcl_base.specs.Faults.{Rose};
ghost use Rattle.pcl_base.specs.declared.trace.Call.{Call as CallKind};
ghost use Rattle.disk_model.specs.Disk.{HasSizes};
ghost use Rattle.redo_log.specs.Told.{NoneFails};
ghost use Rattle.node_rules.specs.CopyRule.{copy_for};
ghost use Rattle.node_rules.specs.BufferRule.{find, copy_at, bytes_of_copy};
ghost use Rattle.node_rules.specs.OpenTxs.{pending_of, waits_as};
ghost use Rattle.node_rules.specs.NodeState.{NodeState};
ghost use Rattle.node_rules.specs.DiskCalls.{DiskCall};
ghost use Rattle.node_rules.specs.Work.{for_each};
ghost use Rattle.node_rules.specs.OwnerRule.{copy_part, grant_own, carry_out};
ghost use Rattle.page_owner.specs.Carry.{HasMemory, UsesOne, UsesMany, SameNode, work_with, halted_by, fault_of, IsReadHalt};
ghost use Rattle.node_parts.specs.Comes.{Comes};
ghost use Rattle.home.specs.Grants.{IsReadFault};
ghost use Rattle.home.specs.Moves.{MoveListView, Lists};

use disk_model::Storage;
use home::{Home, HomeFault};
use node_parts::{Outputs, StepFault, Stock};
use pcl_base::{
    Body, CopyKind, CopyPart, Decision, Grant, Message, Mode, NodeNo, PageNo, TxId, Version,
};

/// A page whose decisions are carried out: the node that owns it, the epoch of the node's messages, and
/// the page's version.
#[derive(Clone, Copy)]
pub struct OwnPage {
    /// The node.
    pub me: NodeNo,
    /// The epoch of its messages.
    pub epoch: u32,
    /// The page.
    pub page: PageNo,
    /// The version of its entry.
    pub version: Version,
}

/// Carries a decision about a page out: a grant to a transaction of the node that waits for it, with
/// its reply, or a message to another node. It takes no memory.
#[tactic(auto, unfolding(node_rules::specs::OwnerRule::carry_out))]
pub fn carry<S: Storage>(
    home: &mut Home,
    at: OwnPage,
    decision: Decision,
    stock: &mut Stock,
    s: &mut S,
    out: &mut Outputs,
) -> Result<(), StepFault>
    requires me { at.me ≡ home.old.txs.node }
    requires sizes { HasSizes home.old.config (S.pages s.old) (S.logs s.old) (S.rooms s.old) }
    requires memory { HasMemory 1 stock.old out.old }
    requires size { home.old.config.size ≤ stock.old.size }
    ensures told { (n : NodeState) (ps : List (List ℕ)) (cs : List DiskCall) → n.epoch ≡ at.epoch → S.pages s.old ≡ Some ps → Comes (carry_out at.page at.version decision (work_with n home.old ps cs out.old)) result (work_with n home.new ps cs out.new) }
    ensures same { SameNode home.old home.new }
    ensures listed { (list : MoveListView) → Lists list home.old → Lists list home.new }
    ensures used { UsesOne stock.old stock.new out.old out.new }
    ensures fault { IfErr result IsReadHalt }
    ensures pages { S.pages s.new ≡ S.pages s.old }
    ensures logs { S.logs s.new ≡ S.logs s.old }
    ensures rooms { S.rooms s.new ≡ S.rooms s.old }
    ensures stops { S.stops s.new ≡ S.stops s.old }
    ensures calm { (l : List (Option ℕ)) → NoneFails (S.failing s.old) at.me l → NoneFails (S.failing s.new) at.me l }
    ensures quiet { (l : List (Option ℕ)) → NoneFails (S.failing s.old) at.me l → halted_by result ≡ None }
    ensures counts { (k : CallKind) → S.faults s.old k ≤ S.faults s.new k }
    ensures cause { (k : CallKind) → halted_by result ≡ Some k → Rose (S.faults s.old k) (S.faults s.new k) }
{
    match decision {
        Decision::Revoke { node } => {
            let epoch = at.epoch;
            let body = Body::Revoke { page: at.page };
            out.send(node, Message { epoch, body });
            Ok(())
        }
        Decision::Grant {
            tx,
            mode,
            right,
            have,
        } => {
            if tx.node == at.me {
                return grant_own(home, at, tx, mode, s, out);
            }
            let grant = Grant {
                tx,
                page: at.page,
                mode,
                right,
                version: at.version,
                copy: copy_part(home, at, have, stock),
            };
            let epoch = at.epoch;
            let body = Body::Grant(grant);
            out.send(tx.node, Message { epoch, body });
            Ok(())
        }
    }
}

/// Grants a page to a transaction of the node, with its reply. It does nothing where that doesn't wait
/// for it.
fn grant_own<S: Storage>(
    home: &mut Home,
    at: OwnPage,
    tx: TxId,
    mode: Mode,
    s: &mut S,
    out: &mut Outputs,
) -> Result<(), StepFault>
    requires me { at.me ≡ home.old.txs.node }
    requires sizes { HasSizes home.old.config (S.pages s.old) (S.logs s.old) (S.rooms s.old) }
    requires room { 1 ≤ out.old.reply_room }
    ensures told { (n : NodeState) (ps : List (List ℕ)) (cs : List DiskCall) → S.pages s.old ≡ Some ps → Comes (grant_own (waits_as (pending_of home.old.txs tx) at.page mode) tx mode at.page at.version (work_with n home.old ps cs out.old)) result (work_with n home.new ps cs out.new) }
    ensures same { SameNode home.old home.new }
    ensures listed { (list : MoveListView) → Lists list home.old → Lists list home.new }
    ensures reply_room { out.old.reply_room ≤ out.new.reply_room + 1 }
    ensures send_room { out.new.send_room ≡ out.old.send_room }
    ensures fault { IfErr result IsReadHalt }
    ensures pages { S.pages s.new ≡ S.pages s.old }
    ensures logs { S.logs s.new ≡ S.logs s.old }
    ensures rooms { S.rooms s.new ≡ S.rooms s.old }
    ensures stops { S.stops s.new ≡ S.stops s.old }
    ensures calm { (l : List (Option ℕ)) → NoneFails (S.failing s.old) at.me l → NoneFails (S.failing s.new) at.me l }
    ensures quiet { (l : List (Option ℕ)) → NoneFails (S.failing s.old) at.me l → halted_by result ≡ None }
    ensures counts { (k : CallKind) → S.faults s.old k ≤ S.faults s.new k }
    ensures cause { (k : CallKind) → halted_by result ≡ Some k → Rose (S.faults s.old k) (S.faults s.new k) }
{
    if waits_for(home, tx, at.page, mode) {
        return match home.grant_own(tx, at.page, mode, at.version, s) {
            Ok(reply) => {
                out.reply(reply);
                Ok(())
            }
            Err(fault) => Err(halt(at.page, fault)),
        };
    }
    Ok(())
}

/// Whether a transaction of the node waits for a page in a mode.
fn waits_for(home: &Home, tx: TxId, page: PageNo, mode: Mode) -> bool
    ensures { result ≡ waits_as (pending_of home.now.txs tx) page mode }
{
    match home.txs().pending(tx) {
        None => false,
        Some(access) => access.page == page && access.mode == mode,
    }
}

/// The fault of a step where a page couldn't be read, or differs.
fn halt(page: PageNo, fault: HomeFault) -> StepFault
    requires { IsReadFault page fault }
    ensures fault { result ≡ fault_of fault }
    ensures read { IsReadHalt result }
{
    match fault {
        HomeFault::Failed { call, .. } => StepFault::Halted { call, kept: None },
        HomeFault::Differs {
            page,
            expected,
            found,
        } => StepFault::Differs {
            page,
            expected,
            found,
        },
        HomeFault::Refused(_) => unreachable!(),
        HomeFault::NoMemory => unreachable!(),
    }
}

/// Where the asker of a grant finds the page: an image is one of the stock.
fn copy_part(home: &Home, at: OwnPage, have: Option<Version>, stock: &mut Stock) -> CopyPart
    requires memory { 1 ≤ stock.old.count }
    requires size { home.now.config.size ≤ stock.old.size }
    ensures part { result ≡ copy_part (copy_for have at.version (find home.now.pool at.page)) (bytes_of_copy (copy_at home.now.pool at.page)) }
    ensures size { stock.new.size ≡ stock.old.size }
    ensures count { stock.old.count ≤ stock.new.count + 1 }
{
    match invalidation::copy_for(have, at.version, home.pool().find(at.page)) {
        CopyKind::Current => CopyPart::Current,
        CopyKind::Image => CopyPart::Image(stock.image(home.pool().bytes(at.page))),
        CopyKind::OnDisk => CopyPart::OnDisk,
    }
}

/// Carries decisions about a page out, one after the other. It takes no memory.
pub fn carry_all<S: Storage>(
    home: &mut Home,
    at: OwnPage,
    decisions: &[Decision],
    stock: &mut Stock,
    s: &mut S,
    out: &mut Outputs,
) -> Result<(), StepFault>
    requires me { at.me ≡ home.old.txs.node }
    requires sizes { HasSizes home.old.config (S.pages s.old) (S.logs s.old) (S.rooms s.old) }
    requires memory { HasMemory (length decisions.now) stock.old out.old }
    requires size { home.old.config.size ≤ stock.old.size }
    ensures told { (n : NodeState) (ps : List (List ℕ)) (cs : List DiskCall) → n.epoch ≡ at.epoch → S.pages s.old ≡ Some ps → Comes (for_each (carry_out at.page at.version) decisions.now (work_with n home.old ps cs out.old)) result (work_with n home.new ps cs out.new) }
    ensures same { SameNode home.old home.new }
    ensures used { OnOk result (UsesMany (length decisions.now) stock.old stock.new out.old out.new) }
    ensures fault { IfErr result IsReadHalt }
    ensures pages { S.pages s.new ≡ S.pages s.old }
    ensures logs { S.logs s.new ≡ S.logs s.old }
    ensures rooms { S.rooms s.new ≡ S.rooms s.old }
    ensures stops { S.stops s.new ≡ S.stops s.old }
    ensures calm { (l : List (Option ℕ)) → NoneFails (S.failing s.old) at.me l → NoneFails (S.failing s.new) at.me l }
    ensures quiet { (l : List (Option ℕ)) → NoneFails (S.failing s.old) at.me l → halted_by result ≡ None }
    ensures counts { (k : CallKind) → S.faults s.old k ≤ S.faults s.new k }
    ensures cause { (k : CallKind) → halted_by result ≡ Some k → Rose (S.faults s.old k) (S.faults s.new k) }
{
    for decision in decisions {
        carry(home, at, *decision, stock, s, out)?;
    }
    Ok(())
}
