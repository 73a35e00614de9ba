ghost use Rattle.std.specs.Prelude.{◌≡◌, ◌≢◌, ◌≤◌, ◌<◌, ◌++◌, ℕ, List, Option, Some, None, length, map, IfOk, IfErr, OnOk, OnErr, Err};
ghost use Rattle.pcl_base.specs.Faults.{Rose};
ghost use Rattle.pcl_base.specs.declared.reply.Reply.TheVariants.{Committed as committed};
ghost use Rattle.pcl_base.specs.declared.trace.Call.{Call as CallKind};
ghost use Rattle.disk_model.specs.declared.stop.Stop.{Stop};
ghost use Rattle.disk_model.specs.Disk.{HasSizes, LoweredAtMost};
ghost use Rattle.redo_log.specs.Told.{NoneFails};
ghost use Rattle.run_rules.specs.Disk.{Disk};
ghost use Rattle.home_laws.specs.RefusedEnds.{commit_refusal};
ghost use Rattle.home.specs.Commits.{Unasked, commit_bytes, commit_calls, told};
ghost use Rattle.home.specs.Device.{told_by, work_on};
ghost use Rattle.node_rules.specs.DiskCalls.{DiskCall};
ghost use Rattle.node_rules.specs.EndRule.{commit};
ghost use Rattle.node_rules.specs.NodeState.{Commit as commits};
ghost use Rattle.node_rules.specs.OwnerRule.{end_work};
ghost use Rattle.node_rules.specs.Refusals.{refusal};
ghost use Rattle.node_rules.specs.Work.{work_of_home};
ghost use Rattle.node_parts.specs.Comes.{Comes, work_of};
ghost use Rattle.node_parts.specs.State.{AreParts, node_of};
ghost use Rattle.node_parts.specs.declared.fault.StepFault.TheVariants.{NoMemory as no_memory};
ghost use Rattle.page_owner.specs.Carry.{HasSame, SameNode, halted_by};
ghost use Rattle.own_steps.specs.Calls.{LeavesCalls};
ghost use Rattle.own_steps.specs.Forced.{IsCommitFault, IsForceFault, LeavesRecord, NamesKept};

use crate::halt::halt_commit;
use crate::ready::prepare_ends;
use crate::rooms::give_up_rooms;
use crate::tell_all::tell_all;
use disk_model::{Call, Storage};
use home::{Ending, Home};
use node_parts::{Outputs, Parts, StepFault};
use pcl_base::{Reply, TxId};

/// Commits a transaction, which the rules don't refuse: its record is forced by one call where it wrote a
/// page; then `Committed`, and what the owners of its pages are told. All memory is taken before:
/// `NoMemory` leaves all as before.
///
/// `Halted` comes where the record couldn't be forced, or the length of the log couldn't be asked before
/// that, or a page of a later grant couldn't be read after it. It names the transaction where its whole
/// record is known to stand in the log though the force failed. `Differs` comes where such a page has
/// another number or version than it must.
pub fn commit<S: Storage>(
    parts: &mut Parts,
    tx: TxId,
    s: &mut S,
    out: &mut Outputs,
) -> Result<(), StepFault>
    requires parts { AreParts parts.old }
    requires none { refusal (node_of parts.old) (commits tx) ≡ None }
    requires sizes { HasSizes parts.old.home.config (S.pages s.old) (S.logs s.old) (S.rooms s.old) }
    ensures comes { (ps : List (List ℕ)) (cs : List DiskCall) → S.pages s.old ≡ Some ps → Comes (end_work (committed tx) tx (work_of (node_of parts.old) ps cs out.old) (commit tx (work_of_home (work_of (node_of parts.old) ps cs out.old)))) result (work_of (node_of parts.new) ps (cs ++ commit_calls parts.old.home tx) out.new) }
    ensures made { LeavesCalls parts.old.home.txs.node result (commit_calls parts.old.home tx) (told_by (S.pages s.old) (S.logs s.old) (S.stops s.old)) (told_by (S.pages s.new) (S.logs s.new) (S.stops s.new)) }
    ensures parts { AreParts parts.new }
    ensures node { result ≡ Err no_memory → node_of parts.new ≡ node_of parts.old }
    ensures lists { result ≡ Err no_memory → HasSame out.old out.new }
    ensures same { SameNode parts.old.home parts.new.home }
    ensures fault { IfErr result (IsCommitFault tx) }
    ensures torn { IfErr result (LeavesRecord parts.old.home tx (Unasked (S.faults s.old Call.Log) (S.faults s.new Call.Log) (S.failing s.old) parts.old.home.txs.node) (S.logs s.old) (S.logs s.new)) }
    ensures kept { (d : Disk) (stops : List (Option Stop)) (l : List (Option ℕ)) → S.logs s.old ≡ Some d.logs → S.stops s.old ≡ Some stops → NoneFails (S.failing s.old) parts.old.me l → IfErr result (NamesKept parts.old.home.txs.node d (commit_calls parts.old.home tx) stops) }
    ensures pages { S.pages s.new ≡ S.pages s.old }
    ensures sizes { HasSizes parts.old.home.config (S.pages s.new) (S.logs s.new) (S.rooms s.new) }
    ensures rooms { LoweredAtMost (S.rooms s.old) (S.rooms s.new) parts.old.home.txs.node (length (commit_bytes parts.old.home tx)) }
    ensures calm { (l : List (Option ℕ)) → NoneFails (S.failing s.old) parts.old.me l → NoneFails (S.failing s.new) parts.old.me l }
    ensures quiet { (l : List (Option ℕ)) → NoneFails (S.failing s.old) parts.old.me l → (halted_by result ≢ Some Call.Read) × (halted_by result ≢ Some Call.Log) }
    ensures counts { (k : CallKind) → S.faults s.old k ≤ S.faults s.new k }
    ensures cause { (k : CallKind) → halted_by result ≡ Some k → Rose (S.faults s.old k) (S.faults s.new k) }
{
    let (plans, stock) = prepare_ends(parts, tx, true, out)?;
    match commit_home(&mut parts.home, tx, s) {
        Err(fault) => {
            give_up_rooms(parts, plans.into_iter());
            Err(fault)
        }
        Ok(ends) => {
            let answer = Reply::Committed { tx };
            tell_all(parts, tx, answer, ends, plans, stock, s, out)
        }
    }
}

/// Commits a transaction at its home, which the rules don't refuse. Each fault leaves the home as before.
fn commit_home<S: Storage>(home: &mut Home, tx: TxId, s: &mut S) -> Result<Vec<Ending>, StepFault>
    requires none { commit_refusal tx home.old ≡ None }
    requires node { home.old.txs.node < home.old.config.nodes }
    requires sizes { HasSizes home.old.config (S.pages s.old) (S.logs s.old) (S.rooms s.old) }
    ensures endings { IfOk result (λ ends. ends.items ≡ map told (commit tx (work_on home.old)).endings) }
    ensures home { OnOk result (home.new ≡ (commit tx (work_on home.old)).work.home) }
    ensures err { OnErr result (home.new ≡ home.old) }
    ensures made { LeavesCalls home.old.txs.node result (commit_calls home.old tx) (told_by (S.pages s.old) (S.logs s.old) (S.stops s.old)) (told_by (S.pages s.new) (S.logs s.new) (S.stops s.new)) }
    ensures fault { IfErr result (IsForceFault tx) }
    ensures torn { IfErr result (LeavesRecord home.old tx (Unasked (S.faults s.old Call.Log) (S.faults s.new Call.Log) (S.failing s.old) home.old.txs.node) (S.logs s.old) (S.logs s.new)) }
    ensures kept { (d : Disk) (stops : List (Option Stop)) (l : List (Option ℕ)) → S.logs s.old ≡ Some d.logs → S.stops s.old ≡ Some stops → NoneFails (S.failing s.old) home.old.txs.node l → IfErr result (NamesKept home.old.txs.node d (commit_calls home.old tx) stops) }
    ensures pages { S.pages s.new ≡ S.pages s.old }
    ensures sizes { HasSizes home.old.config (S.pages s.new) (S.logs s.new) (S.rooms s.new) }
    ensures rooms { LoweredAtMost (S.rooms s.old) (S.rooms s.new) home.old.txs.node (length (commit_bytes home.old tx)) }
    ensures calm { (l : List (Option ℕ)) → NoneFails (S.failing s.old) home.old.txs.node l → NoneFails (S.failing s.new) home.old.txs.node l }
    ensures quiet { (l : List (Option ℕ)) → NoneFails (S.failing s.old) home.old.txs.node l → halted_by result ≢ Some Call.Log }
    ensures counts { (k : CallKind) → S.faults s.old k ≤ S.faults s.new k }
    ensures cause { (k : CallKind) → halted_by result ≡ Some k → Rose (S.faults s.old k) (S.faults s.new k) }
{
    match home.commit(tx, s) {
        Err(fault) => Err(halt_commit(fault, tx)),
        Ok(ends) => Ok(ends),
    }
}
