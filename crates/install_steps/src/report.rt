ghost use Rattle.std.specs.Prelude.{◌≡◌, ◌≤◌, ◌<◌, ◌+◌, ◌++◌, ℕ, List, Option, Some, None, replicate, is_some, Err, IfErr, IfOk, OnOk};
ghost use Rattle.pcl_base.specs.Faults.{Rose};
ghost use Rattle.pcl_base.specs.declared.message.Body.TheVariants.{Report as reports};
ghost use Rattle.pcl_base.specs.declared.reply.Reply.TheVariants.{Taken as taken};
ghost use Rattle.pcl_base.specs.declared.trace.Call.{Call as CallKind};
ghost use Rattle.disk_model.specs.Disk.{HasSizes};
ghost use Rattle.redo_log.specs.Told.{NoneFails};
ghost use Rattle.run_rules.specs.Disk.{Disk};
ghost use Rattle.text_rules.specs.MessageBytes.{IsBody};
ghost use Rattle.home.specs.Device.{told_by};
ghost use Rattle.home.specs.Moves.{Lists};
ghost use Rattle.node_rules.specs.DiskCalls.{DiskCall};
ghost use Rattle.node_rules.specs.InstallRule.{on_report};
ghost use Rattle.node_rules.specs.NodeState.{table_at};
ghost use Rattle.node_rules.specs.Work.{reply};
ghost use Rattle.install_laws.specs.InstallPlans.{carry_plan};
ghost use Rattle.node_parts.specs.Comes.{Comes, work_of};
ghost use Rattle.node_parts.specs.State.{AreParts, node_of};
ghost use Rattle.node_parts.specs.Tables.{place_at};
ghost use Rattle.node_parts.specs.declared.fault.StepFault.TheVariants.{NoMemory as no_memory};
ghost use Rattle.install_plans.specs.Plans.{plan_of};
ghost use Rattle.page_owner.specs.Carry.{HasSame, SameNode, halted_by};
ghost use Rattle.page_owner.specs.Writes.{after_calls};
ghost use Rattle.partition_steps.specs.Carried.{CanCarry, plan_calls};
ghost use Rattle.partition_steps.specs.Memory.{HasMemoryFor, needs_of};
ghost use Rattle.install_steps.specs.Calls.{IsReportFault, LeavesCalls, report_calls};
ghost use Rattle.install_steps.specs.Views.{ends_with_table};

use crate::apt::stands_after;
use crate::leaving::leave;
use disk_model::{Call, Storage};
use install_plans::{PartitionPlan, plan_report};
use node_parts::{Outputs, Parts, StepFault, Tables};
use partition_steps::{Memory, carry, needs_of, take_memory};
use pcl_base::{NoMemory, NodeNo, Reply, Report};

/// A report that is taken: `Taken` is answered, and where the node rebuilds the partition, what is listed
/// enters its table; where no further report is missing then, the partition is redone, served and settled.
/// All is planned, and all memory taken, before the first change: `NoMemory` leaves all as before. It is
/// answered too where the plan would add or drop a table.
///
/// `Halted` comes where a page or a log couldn't be read or a page couldn't be written; `Differs` names the
/// page that was read with another number or version than it must have. After these two the node may only
/// be lost.
pub fn take_report<S: Storage>(
    parts: &mut Parts,
    from: NodeNo,
    report: &Report,
    s: &mut S,
    out: &mut Outputs,
) -> Result<(), StepFault>
    requires parts { AreParts parts.old }
    requires from { from < parts.old.home.config.nodes }
    requires body { IsBody parts.old.home.config (reports report.now) }
    requires sizes { HasSizes parts.old.home.config (S.pages s.old) (S.logs s.old) (S.rooms s.old) }
    ensures comes { (d : Disk) (cs : List DiskCall) → S.pages s.old ≡ Some d.pages → S.logs s.old ≡ Some d.logs → Comes (on_report d from report.now (reply taken (work_of (node_of parts.old) d.pages cs out.old))) result (work_of (node_of parts.new) (after_calls d.pages (report_calls d from report.now (node_of parts.old))) (cs ++ report_calls d from report.now (node_of parts.old)) out.new) }
    ensures made { (d : Disk) → S.pages s.old ≡ Some d.pages → S.logs s.old ≡ Some d.logs → LeavesCalls parts.old.me result (report_calls d from report.now (node_of parts.old)) (told_by (S.pages s.old) (S.logs s.old) (S.stops s.old)) (told_by (S.pages s.new) (S.logs s.new) (S.stops s.new)) }
    ensures parts { AreParts parts.new }
    ensures node { result ≡ Err no_memory → parts.new ≡ parts.old }
    ensures lists { result ≡ Err no_memory → HasSame out.old out.new }
    ensures told { result ≡ Err no_memory → told_by (S.pages s.new) (S.logs s.new) (S.stops s.new) ≡ told_by (S.pages s.old) (S.logs s.old) (S.stops s.old) }
    ensures same { SameNode parts.old.home parts.new.home }
    ensures fault { IfErr result IsReportFault }
    ensures sizes { HasSizes parts.old.home.config (S.pages s.new) (S.logs s.new) (S.rooms s.new) }
    ensures logs { S.logs s.new ≡ S.logs s.old }
    ensures rooms { S.rooms s.new ≡ S.rooms s.old }
    ensures calm { (l : List (Option ℕ)) → NoneFails (S.failing s.old) parts.old.me l → NoneFails (S.failing s.new) parts.old.me l }
    ensures quiet { (l : List (Option ℕ)) (k : CallKind) → NoneFails (S.failing s.old) parts.old.me l → halted_by result ≡ Some k → k ≡ Call.Write }
    ensures counts { (k : CallKind) → S.faults s.old k ≤ S.faults s.new k }
    ensures cause { (k : CallKind) → halted_by result ≡ Some k → Rose (S.faults s.old k) (S.faults s.new k) }
{
    match plan_report(parts, from, report, s) {
        Err(fault) => Err(fault),
        Ok(plan) => take_planned(parts, report.partition, plan, s, out),
    }
}

/// The plan of a report that is taken is carried out. `NoMemory` leaves all as before.
fn take_planned<S: Storage>(
    parts: &mut Parts,
    q: NodeNo,
    plan: PartitionPlan,
    s: &mut S,
    out: &mut Outputs,
) -> Result<(), StepFault>
    requires parts { AreParts parts.old }
    requires q { q < parts.old.home.config.nodes }
    requires plan { CanCarry parts.old.home.config parts.old.me q (S.pages s.old) (S.logs s.old) plan }
    requires sizes { HasSizes parts.old.home.config (S.pages s.old) (S.logs s.old) (S.rooms s.old) }
    ensures comes { (d : Disk) (cs : List DiskCall) → S.pages s.old ≡ Some d.pages → S.logs s.old ≡ Some d.logs → Comes (carry_plan q (plan_of d (table_at (node_of parts.old) q) plan) (reply taken (work_of (node_of parts.old) d.pages cs out.old))) result (work_of (node_of parts.new) (after_calls d.pages (plan_calls d plan)) (cs ++ plan_calls d plan) out.new) }
    ensures made { (d : Disk) → S.pages s.old ≡ Some d.pages → S.logs s.old ≡ Some d.logs → LeavesCalls parts.old.me result (plan_calls d plan) (told_by (S.pages s.old) (S.logs s.old) (S.stops s.old)) (told_by (S.pages s.new) (S.logs s.new) (S.stops s.new)) }
    ensures parts { AreParts parts.new }
    ensures node { result ≡ Err no_memory → parts.new ≡ parts.old }
    ensures lists { result ≡ Err no_memory → HasSame out.old out.new }
    ensures told { result ≡ Err no_memory → told_by (S.pages s.new) (S.logs s.new) (S.stops s.new) ≡ told_by (S.pages s.old) (S.logs s.old) (S.stops s.old) }
    ensures same { SameNode parts.old.home parts.new.home }
    ensures fault { IfErr result IsReportFault }
    ensures sizes { HasSizes parts.old.home.config (S.pages s.new) (S.logs s.new) (S.rooms s.new) }
    ensures logs { S.logs s.new ≡ S.logs s.old }
    ensures rooms { S.rooms s.new ≡ S.rooms s.old }
    ensures calm { (l : List (Option ℕ)) → NoneFails (S.failing s.old) parts.old.me l → NoneFails (S.failing s.new) parts.old.me l }
    ensures quiet { (l : List (Option ℕ)) (k : CallKind) → NoneFails (S.failing s.old) parts.old.me l → halted_by result ≡ Some k → k ≡ Call.Write }
    ensures counts { (k : CallKind) → S.faults s.old k ≤ S.faults s.new k }
    ensures cause { (k : CallKind) → halted_by result ≡ Some k → Rose (S.faults s.old k) (S.faults s.new k) }
{
    match ready_for(parts, q, &plan, out) {
        Err(_) => Err(StepFault::NoMemory),
        Ok(ready) => {
            let ReportReady { memory, none } = ready;
            let mut memory = memory;
            out.reply(Reply::Taken);
            match carry(parts, q, plan, &mut memory, s, out) {
                Ok(()) => Ok(()),
                Err(fault) => {
                    leave(parts, none);
                    Err(fault)
                }
            }
        }
    }
}

/// The memory for a report that is taken, and no tables, for a node that may only be lost.
#[derive(Drop)]
struct ReportReady {
    memory: Memory,
    none: Tables,
}

/// Takes all memory of a report that is taken. Nothing changes, also where there is `NoMemory`. That comes
/// too where the plan would leave a table where there is none, or none where there is one, which no report
/// does.
fn ready_for(
    parts: &Parts,
    q: NodeNo,
    plan: &PartitionPlan,
    out: &mut Outputs,
) -> Result<ReportReady, NoMemory>
    requires parts { AreParts parts.now }
    requires q { q < parts.now.home.config.nodes }
    ensures table { OnOk result (ends_with_table parts.now q plan.now ≡ is_some (place_at parts.now.tables.places q)) }
    ensures list { IfOk result (λ r. Lists r.memory.list parts.now.home) }
    ensures memory { IfOk result (λ r. HasMemoryFor (needs_of plan.now) r.memory.stock out.new) }
    ensures size { IfOk result (λ r. r.memory.stock.size ≡ parts.now.home.config.size) }
    ensures further { OnOk result ((needs_of plan.now).replies + 1 ≤ out.new.reply_room) }
    ensures none { IfOk result (λ r. r.none ≡ record { config = parts.now.home.config; places = replicate parts.now.home.config.nodes None }) }
    ensures lists { HasSame out.old out.new }
{
    let before = parts.tables.at(q).is_some();
    if stands_after(&plan.table, before) != before {
        return Err(NoMemory);
    }
    let needs = needs_of(plan)?;
    let memory = take_memory(parts, needs, 1, out)?;
    let none = Tables::open(parts.alloc, parts.home.config())?;
    Ok(ReportReady { memory, none })
}
