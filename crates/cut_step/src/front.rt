ghost use Rattle.std.specs.Prelude.{◌≡◌, ◌≢◌, ℕ, ◌≤◌, ◌==◌, ◌++◌, ◌∷◌, [], List, Option, Some, None, Err, IfErr, OnOk, OnErr, length};
ghost use Rattle.pcl_base.specs.Faults.{Rose};
ghost use Rattle.pcl_base.specs.declared.reply.Reply.TheVariants.{Cut as cut_reply};
ghost use Rattle.pcl_base.specs.declared.trace.Call.{Call as CallKind};
ghost use Rattle.disk_model.specs.Disk.{HasSizes};
ghost use Rattle.redo_log.specs.Told.{IsLog, NoneFails};
ghost use Rattle.run_rules.specs.Disk.{Disk};
ghost use Rattle.home.specs.Device.{told_by};
ghost use Rattle.node_rules.specs.DiskCalls.{DiskCall};
ghost use Rattle.node_rules.specs.NodeStep.{cut_log};
ghost use Rattle.node_parts.specs.Comes.{Comes, work_of};
ghost use Rattle.node_parts.specs.State.{AreParts, node_of};
ghost use Rattle.node_parts.specs.declared.fault.StepFault.TheVariants.{Halted as halted};
ghost use Rattle.page_owner.specs.Carry.{HasSame, halted_by};
ghost use Rattle.cut_step.specs.Cuts.{IsFrontFault, LeavesFront, cut_calls, fault_of, front_of};

use disk_model::{Call, Storage};
use log_cut::cuttable;
use node_parts::{Outputs, Parts, StepFault};
use page_store::RedoFault;
use pcl_base::{Failed, Reply};

/// Cuts from the front of the node's log the whole records of which the stored pages have every version,
/// and replies how many bytes these were; where there are none no call is made. `NoMemory` leaves all as before.
///
/// `Halted` comes where a page or the log couldn't be read, with the log as before, or where the cut failed.
/// `Differs` names the first page that was read with another number than it must have.
pub fn cut<S: Storage>(parts: &Parts, s: &mut S, out: &mut Outputs) -> Result<(), StepFault>
    requires parts { AreParts parts.now }
    requires sizes { HasSizes parts.now.home.config (S.pages s.old) (S.logs s.old) (S.rooms s.old) }
    ensures comes { (d : Disk) (cs : List DiskCall) → S.pages s.old ≡ Some d.pages → S.logs s.old ≡ Some d.logs → Comes (cut_log d (work_of (node_of parts.now) d.pages cs out.old)) result (work_of (node_of parts.now) d.pages (cs ++ cut_calls (front_of d (node_of parts.now))) out.new) }
    ensures made { (d : Disk) → S.pages s.old ≡ Some d.pages → S.logs s.old ≡ Some d.logs → LeavesFront parts.now.me (front_of d (node_of parts.now)) result (told_by (S.pages s.old) (S.logs s.old) (S.stops s.old)) (told_by (S.pages s.new) (S.logs s.new) (S.stops s.new)) }
    ensures cuts { (n : ℕ) × LeavesFront parts.now.me n result (told_by (S.pages s.old) (S.logs s.old) (S.stops s.old)) (told_by (S.pages s.new) (S.logs s.new) (S.stops s.new)) × OnOk result (out.new.replies ≡ out.old.replies ++ cut_reply n ∷ []) }
    ensures same { OnErr result (HasSame out.old out.new) }
    ensures fault { IfErr result IsFrontFault }
    ensures sizes { HasSizes parts.now.home.config (S.pages s.new) (S.logs s.new) (S.rooms s.new) }
    ensures calm { (l : List (Option ℕ)) → NoneFails (S.failing s.old) parts.now.me l → NoneFails (S.failing s.new) parts.now.me l }
    ensures quiet { (l : List (Option ℕ)) → NoneFails (S.failing s.old) parts.now.me l → (halted_by result ≢ Some Call.Read) × (halted_by result ≢ Some Call.Log) }
    ensures counts { (k : CallKind) → S.faults s.old k ≤ S.faults s.new k }
    ensures cause { (k : CallKind) → halted_by result ≡ Some k → Rose (S.faults s.old k) (S.faults s.new k) }
{
    let size = parts.home.config().size() as usize + 16;
    let mut raw = vec![in parts.alloc; 0u8; size]?;
    out.reserve(1, 0)?;
    let config = parts.home.config();
    match cuttable(s, config, parts.me, raw.as_mut_slice()) {
        Ok(count) => cut_front(parts, count, s, out),
        Err(fault) => Err(halt(fault)),
    }
}

/// Cuts so many bytes from the front of the node's log, if there are any, and replies their number.
fn cut_front<S: Storage>(
    parts: &Parts,
    count: u64,
    s: &mut S,
    out: &mut Outputs,
) -> Result<(), StepFault>
    requires parts { AreParts parts.now }
    requires sizes { HasSizes parts.now.home.config (S.pages s.old) (S.logs s.old) (S.rooms s.old) }
    requires within { (log : List ℕ) → IsLog (S.logs s.old) parts.now.me log → count ≤ length log }
    requires room { 1 ≤ out.old.reply_room }
    ensures replies { OnOk result (out.new.replies ≡ out.old.replies ++ cut_reply count ∷ []) }
    ensures sends { out.new.sends ≡ out.old.sends }
    ensures same { OnErr result (out.new ≡ out.old) }
    ensures made { LeavesFront parts.now.me count result (told_by (S.pages s.old) (S.logs s.old) (S.stops s.old)) (told_by (S.pages s.new) (S.logs s.new) (S.stops s.new)) }
    ensures sizes { HasSizes parts.now.home.config (S.pages s.new) (S.logs s.new) (S.rooms s.new) }
    ensures fault { IfErr result IsFrontFault }
    ensures failing { S.failing s.new ≡ S.failing s.old }
    ensures called { IfErr result (λ e. e ≡ halted Call.Cut None) }
    ensures counts { (k : CallKind) → S.faults s.old k ≤ S.faults s.new k }
    ensures cause { (k : CallKind) → halted_by result ≡ Some k → Rose (S.faults s.old k) (S.faults s.new k) }
{
    if count == 0 {
        out.reply(Reply::Cut { count });
        return Ok(());
    }
    match s.cut_log(parts.me, count) {
        Ok(()) => {
            out.reply(Reply::Cut { count });
            Ok(())
        }
        Err(Failed) => Err(StepFault::Halted {
            call: Call::Cut,
            kept: None,
        }),
    }
}

/// The fault of a step whose search of what may be cut ended early.
fn halt(fault: RedoFault) -> StepFault
    ensures { result ≡ fault_of fault }
{
    match fault {
        RedoFault::Failed(call) => StepFault::Halted { call, kept: None },
        RedoFault::BadPage {
            page,
            expected,
            found,
        } => StepFault::Differs {
            page,
            expected,
            found,
        },
        RedoFault::NoMemory => StepFault::NoMemory,
    }
}
