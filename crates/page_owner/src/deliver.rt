ghost use Rattle.std.specs.Prelude.{◌≡◌, ◌≢◌, ◌≤◌, ◌<◌, ◌++◌, ◌∷◌, [], ℕ, List, Option, Some, false, OnOk, OnErr, IfErr, Err};
ghost use Rattle.pcl_base.specs.Faults.{Rose};
ghost use Rattle.pcl_base.specs.declared.trace.Call.{Call as CallKind};
ghost use Rattle.pcl_base.specs.declared.reply.Reply.TheVariants.{Taken as taken};
ghost use Rattle.disk_model.specs.Disk.{HasSizes};
ghost use Rattle.redo_log.specs.Told.{NoneFails};
ghost use Rattle.run_rules.specs.Disk.{Disk};
ghost use Rattle.text_rules.specs.MessageBytes.{IsBody};
ghost use Rattle.node_rules.specs.DiskCalls.{DiskCall};
ghost use Rattle.node_rules.specs.NodeState.{number_of};
ghost use Rattle.node_rules.specs.NodeStep.{judge_in, partition_of, take_message, work_off};
ghost use Rattle.node_rules.specs.Work.{reply};
ghost use Rattle.node_parts.specs.declared.fault.StepFault.TheVariants.{NoMemory as no_memory};
ghost use Rattle.page_owner.specs.Carry.{SameNode, HasSame, halted_by};
ghost use Rattle.node_parts.specs.Comes.{Comes, work_of};
ghost use Rattle.home.specs.Device.{told_by};
ghost use Rattle.page_owner.specs.Released.{is_report, body_calls, message_calls, LeavesCalls, IsReleaseFault};
ghost use Rattle.page_owner.specs.Writes.{after_calls};
ghost use Rattle.node_parts.specs.State.{AreParts, node_of};

use crate::arrive::{take_grant, take_revoke};
use crate::release::take_release;
use crate::take::{take_request, take_return};
use disk_model::{Call, Storage};
use node_parts::{Outputs, Parts, StepFault};
use pcl_base::{Body, Config, Message, NodeNo, Reply, Verdict};

// Messages that are delivered, but reports.

/// Judges a message that isn't a report, and works it off where it is taken. `NoMemory` leaves all
/// as before.
#[tactic(auto, unfolding(node_rules::specs::NodeStep::take_message))]
pub fn deliver_other<S: Storage>(
    parts: &mut Parts,
    from: NodeNo,
    m: &Message,
    s: &mut S,
    out: &mut Outputs,
) -> Result<(), StepFault>
    requires parts { AreParts parts.old }
    requires from { from < parts.old.home.config.nodes }
    requires body { IsBody parts.old.home.config m.now.body }
    requires other { is_report m.now.body ≡ false }
    requires sizes { HasSizes parts.old.home.config (S.pages s.old) (S.logs s.old) (S.rooms s.old) }
    ensures comes { (d : Disk) (ps : List (List ℕ)) (cs : List DiskCall) → S.pages s.old ≡ Some ps → Comes (take_message d from m.now (work_of (node_of parts.old) ps cs out.old)) result (work_of (node_of parts.new) (after_calls ps (message_calls from m.now (node_of parts.old))) (cs ++ message_calls from m.now (node_of parts.old)) out.new) }
    ensures parts { AreParts parts.new }
    ensures node { result ≡ Err no_memory → parts.new ≡ parts.old }
    ensures lists { result ≡ Err no_memory → HasSame out.old out.new }
    ensures same { SameNode parts.old.home parts.new.home }
    ensures fault { IfErr result IsReleaseFault }
    ensures made { LeavesCalls parts.old.me result (message_calls from m.now (node_of parts.old)) (told_by (S.pages s.old) (S.logs s.old) (S.stops s.old)) (told_by (S.pages s.new) (S.logs s.new) (S.stops s.new)) }
    ensures sizes { HasSizes parts.old.home.config (S.pages s.new) (S.logs s.new) (S.rooms s.new) }
    ensures logs { S.logs s.new ≡ S.logs s.old }
    ensures rooms { S.rooms s.new ≡ S.rooms s.old }
    ensures calm { (l : List (Option ℕ)) → NoneFails (S.failing s.old) parts.old.me l → NoneFails (S.failing s.new) parts.old.me l }
    ensures quiet { (l : List (Option ℕ)) → NoneFails (S.failing s.old) parts.old.me l → halted_by result ≢ Some Call.Read }
    ensures counts { (k : CallKind) → S.faults s.old k ≤ S.faults s.new k }
    ensures cause { (k : CallKind) → halted_by result ≡ Some k → Rose (S.faults s.old k) (S.faults s.new k) }
{
    match judge(parts, from, m) {
        Verdict::Taken => work_off(parts, from, &m.body, s, out),
        Verdict::Held => answer(out, Reply::Held),
        Verdict::Dropped => answer(out, Reply::Dropped),
    }
}

/// Works a message off that is taken and isn't a report.
pub fn work_off<S: Storage>(
    parts: &mut Parts,
    from: NodeNo,
    body: &Body,
    s: &mut S,
    out: &mut Outputs,
) -> Result<(), StepFault>
    requires parts { AreParts parts.old }
    requires body { IsBody parts.old.home.config body.now }
    requires other { is_report body.now ≡ false }
    requires sizes { HasSizes parts.old.home.config (S.pages s.old) (S.logs s.old) (S.rooms s.old) }
    ensures comes { (d : Disk) (ps : List (List ℕ)) (cs : List DiskCall) → S.pages s.old ≡ Some ps → Comes (work_off d from body.now (reply taken (work_of (node_of parts.old) ps cs out.old))) result (work_of (node_of parts.new) (after_calls ps (body_calls body.now (node_of parts.old))) (cs ++ body_calls body.now (node_of parts.old)) out.new) }
    ensures parts { AreParts parts.new }
    ensures node { result ≡ Err no_memory → parts.new ≡ parts.old }
    ensures lists { result ≡ Err no_memory → HasSame out.old out.new }
    ensures same { SameNode parts.old.home parts.new.home }
    ensures fault { IfErr result IsReleaseFault }
    ensures made { LeavesCalls parts.old.me result (body_calls body.now (node_of parts.old)) (told_by (S.pages s.old) (S.logs s.old) (S.stops s.old)) (told_by (S.pages s.new) (S.logs s.new) (S.stops s.new)) }
    ensures sizes { HasSizes parts.old.home.config (S.pages s.new) (S.logs s.new) (S.rooms s.new) }
    ensures logs { S.logs s.new ≡ S.logs s.old }
    ensures rooms { S.rooms s.new ≡ S.rooms s.old }
    ensures calm { (l : List (Option ℕ)) → NoneFails (S.failing s.old) parts.old.me l → NoneFails (S.failing s.new) parts.old.me l }
    ensures quiet { (l : List (Option ℕ)) → NoneFails (S.failing s.old) parts.old.me l → halted_by result ≢ Some Call.Read }
    ensures counts { (k : CallKind) → S.faults s.old k ≤ S.faults s.new k }
    ensures cause { (k : CallKind) → halted_by result ≡ Some k → Rose (S.faults s.old k) (S.faults s.new k) }
{
    match body {
        Body::Request(r) => take_request(parts, r, s, out),
        Body::Grant(g) => take_grant(parts, g, s, out),
        Body::Release(r) => take_release(parts, r, s, out),
        Body::Revoke { page } => take_revoke(parts, from, *page, out),
        Body::Return(r) => take_return(parts, from, r, s, out),
        Body::Report(_) => unreachable!(),
    }
}

/// What becomes of a message: all are held while the node is in no view.
pub fn judge(parts: &Parts, from: NodeNo, m: &Message) -> Verdict
    requires parts { AreParts parts.now }
    requires from { from < parts.now.home.config.nodes }
    requires body { IsBody parts.now.home.config m.now.body }
    ensures { result ≡ judge_in parts.now.view (number_of (node_of parts.now)) from m.now.epoch (partition_of parts.now.home.config m.now.body) }
{
    match &parts.view {
        None => Verdict::Held,
        Some(view) => {
            let q = partition_of(parts.home.config(), &m.body);
            view.judge(parts.me, from, m.epoch, q)
        }
    }
}

/// The partition of which a message speaks.
fn partition_of(config: &Config, body: &Body) -> NodeNo
    requires { IsBody config.now body.now }
    ensures value { result ≡ partition_of config.now body.now }
    ensures below { result < config.now.nodes }
{
    match body {
        Body::Request(r) => config.partition(r.page),
        Body::Grant(g) => config.partition(g.page),
        Body::Release(r) => config.partition(r.page),
        Body::Revoke { page } => config.partition(*page),
        Body::Return(r) => config.partition(r.page),
        Body::Report(r) => r.partition,
    }
}

/// A message that is held or dropped. `NoMemory` leaves the lists as before.
fn answer(out: &mut Outputs, reply: Reply) -> Result<(), StepFault>
    ensures replies { OnOk result (out.new.replies ≡ out.old.replies ++ reply ∷ []) }
    ensures sends { out.new.sends ≡ out.old.sends }
    ensures err { OnErr result (HasSame out.old out.new) }
    ensures fault { IfErr result (λ e. e ≡ no_memory) }
{
    out.reserve(1, 0)?;
    out.reply(reply);
    Ok(())
}
