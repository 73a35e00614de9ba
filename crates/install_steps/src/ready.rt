ghost use Rattle.std.specs.Prelude.{◌≡◌, ◌≤◌, ◌+◌, [], ℕ, List, Option, Some, None, true, length, replicate, IfOk, OnOk, IfErr, IfSome};
ghost use Rattle.pcl_base.specs.Faults.{Rose};
ghost use Rattle.pcl_base.specs.declared.trace.Call.{Call as Kind};
ghost use Rattle.disk_model.specs.Disk.{HasSizes, ReachesTo, told_at};
ghost use Rattle.redo_log.specs.Told.{NoneFails};
ghost use Rattle.run_rules.specs.Disk.{Disk};
ghost use Rattle.node_parts.specs.State.{AreParts, node_of};
ghost use Rattle.home.specs.Moves.{Lists};
ghost use Rattle.node_parts.specs.declared.fault.StepFault.TheVariants.{NoMemory as no_memory};
ghost use Rattle.install_plans.specs.Plans.{IsCallFault, IsPlanFault};
ghost use Rattle.partition_steps.specs.Memory.{HasMemoryFor, needs_of_all};
ghost use Rattle.page_owner.specs.Carry.{HasSame, halted_by};
ghost use Rattle.install_steps.specs.Births.{KeepsRecords, is_born_in, kept_if};
ghost use Rattle.install_steps.specs.Calls.{UnlessWanting, halts_at};
ghost use Rattle.install_steps.specs.Ready.{IsApt, IsReady};
ghost use Rattle.install_steps.specs.Views.{IsUnbegun};

use crate::apt::{are_apt, is_unbegun};
use crate::torn::torn_rest;
use authority_map::View;
use disk_model::Storage;
use install_plans::{InstallPlan, plan_install};
use node_parts::{Outputs, Parts, StepFault, Tables};
use partition_steps::{Memory, needs_of_all, take_memory};

/// What is ready before a view is installed.
#[derive(Drop)]
pub(crate) struct Ready {
    /// The view.
    pub(crate) view: View,
    /// Whether the node is born in it.
    pub(crate) is_born: bool,
    /// How many bytes of the node's log stay, where its torn rest is trimmed.
    pub(crate) keep: Option<u64>,
    /// The plans of the partitions.
    pub(crate) plan: InstallPlan,
    /// The memory for them.
    pub(crate) memory: Memory,
    /// No tables, for a node that may only be lost.
    pub(crate) none: Tables,
}

/// Makes all ready for the install of a view: it reads what the install reads before its first change, and
/// takes all memory. Nothing changes, also where there is `NoMemory`. That comes too where the plans don't
/// leave a table exactly where the node owns the partition in the view, or a node that is born in it has
/// begun a transaction before.
pub(crate) fn prepare<S: Storage>(
    parts: &Parts,
    view: &View,
    s: &mut S,
    out: &mut Outputs,
) -> Result<Ready, StepFault>
    requires parts { AreParts parts.now }
    requires nodes { length view.now.live ≡ parts.now.home.config.nodes }
    requires sizes { HasSizes parts.now.home.config (S.pages s.old) (S.logs s.old) (S.rooms s.old) }
    ensures ready { IfOk result (IsReady parts.now view.now (S.pages s.old) (S.logs s.old) out.new) }
    ensures lists { HasSame out.old out.new }
    ensures unbegun { UnlessWanting result (is_born_in view.now (node_of parts.now) ≡ true → parts.now.home.txs.txs ≡ []) }
    ensures fault { IfErr result IsCallFault }
    ensures pages { S.pages s.new ≡ S.pages s.old }
    ensures logs { S.logs s.new ≡ S.logs s.old }
    ensures rooms { S.rooms s.new ≡ S.rooms s.old }
    ensures stops { S.stops s.new ≡ S.stops s.old }
    ensures calm { (l : List (Option ℕ)) → NoneFails (S.failing s.old) parts.now.me l → NoneFails (S.failing s.new) parts.now.me l }
    ensures quiet { (l : List (Option ℕ)) → NoneFails (S.failing s.old) parts.now.me l → halted_by result ≡ None }
    ensures counts { (k : Kind) → S.faults s.old k ≤ S.faults s.new k }
    ensures cause { (k : Kind) → halted_by result ≡ Some k → Rose (S.faults s.old k) (S.faults s.new k) }
{
    let is_born = is_born(parts, view);
    if !may_live(parts, is_born) {
        return Err(StepFault::NoMemory);
    }
    match torn_if(parts, is_born, s) {
        Ok(keep) => plan_with(parts, view, is_born, keep, s, out),
        Err(fault) => Err(fault),
    }
}

/// The same, once it is known how many bytes of the node's log stay.
fn plan_with<S: Storage>(
    parts: &Parts,
    view: &View,
    is_born: bool,
    keep: Option<u64>,
    s: &mut S,
    out: &mut Outputs,
) -> Result<Ready, StepFault>
    requires parts { AreParts parts.now }
    requires nodes { length view.now.live ≡ parts.now.home.config.nodes }
    requires unbegun { is_born ≡ true → IsUnbegun parts.now.home.txs }
    requires born { is_born ≡ is_born_in view.now (node_of parts.now) }
    requires kept { (d : Disk) → S.logs s.old ≡ Some d.logs → keep ≡ kept_if is_born d (node_of parts.now) }
    requires keeps { KeepsRecords parts.now.home.config parts.now.me keep (S.logs s.old) }
    requires within { IfSome keep (λ k. ReachesTo (told_at (S.logs s.old) parts.now.me) k) }
    requires sizes { HasSizes parts.now.home.config (S.pages s.old) (S.logs s.old) (S.rooms s.old) }
    ensures ready { IfOk result (IsReady parts.now view.now (S.pages s.old) (S.logs s.old) out.new) }
    ensures lists { HasSame out.old out.new }
    ensures fault { IfErr result IsCallFault }
    ensures pages { S.pages s.new ≡ S.pages s.old }
    ensures logs { S.logs s.new ≡ S.logs s.old }
    ensures rooms { S.rooms s.new ≡ S.rooms s.old }
    ensures stops { S.stops s.new ≡ S.stops s.old }
    ensures calm { (l : List (Option ℕ)) → NoneFails (S.failing s.old) parts.now.me l → NoneFails (S.failing s.new) parts.now.me l }
    ensures quiet { (l : List (Option ℕ)) → NoneFails (S.failing s.old) parts.now.me l → halted_by result ≡ None }
    ensures counts { (k : Kind) → S.faults s.old k ≤ S.faults s.new k }
    ensures cause { (k : Kind) → halted_by result ≡ Some k → Rose (S.faults s.old k) (S.faults s.new k) }
{
    let plan = match plan_install(parts, view, s) {
        Ok(plan) => plan,
        Err(fault) => return Err(planning_fault(fault)),
    };
    if is_apt(parts, view, &plan) {
        return with_memory(parts, view, is_born, keep, plan, out);
    }
    Err(StepFault::NoMemory)
}

/// Whether the node is born in a view.
fn is_born(parts: &Parts, view: &View) -> bool
    requires parts { AreParts parts.now }
    requires nodes { length view.now.live ≡ parts.now.home.config.nodes }
    ensures { result ≡ is_born_in view.now (node_of parts.now) }
{
    view.born(parts.me) == view.epoch()
}

/// Whether a node that is born has begun no transaction.
fn may_live(parts: &Parts, is_born: bool) -> bool
    ensures { result ≡ true → is_born ≡ true → IsUnbegun parts.now.home.txs }
{
    if is_born {
        return is_unbegun(parts);
    }
    true
}

/// How many bytes of the node's log stay, where the node is born and the log has a torn rest.
fn torn_if<S: Storage>(parts: &Parts, is_born: bool, s: &mut S) -> Result<Option<u64>, StepFault>
    requires parts { AreParts parts.now }
    requires sizes { HasSizes parts.now.home.config (S.pages s.old) (S.logs s.old) (S.rooms s.old) }
    ensures kept { (d : Disk) → S.logs s.old ≡ Some d.logs → IfOk result (λ o. o ≡ kept_if is_born d (node_of parts.now)) }
    ensures keeps { IfOk result (λ o. KeepsRecords parts.now.home.config parts.now.me o (S.logs s.old)) }
    ensures within { IfOk result (λ o. IfSome o (λ keep. ReachesTo (told_at (S.logs s.old) parts.now.me) keep)) }
    ensures fault { IfErr result IsCallFault }
    ensures pages { S.pages s.new ≡ S.pages s.old }
    ensures logs { S.logs s.new ≡ S.logs s.old }
    ensures rooms { S.rooms s.new ≡ S.rooms s.old }
    ensures stops { S.stops s.new ≡ S.stops s.old }
    ensures calm { (l : List (Option ℕ)) → NoneFails (S.failing s.old) parts.now.me l → NoneFails (S.failing s.new) parts.now.me l }
    ensures quiet { (l : List (Option ℕ)) → NoneFails (S.failing s.old) parts.now.me l → halted_by result ≡ None }
    ensures counts { (k : Kind) → S.faults s.old k ≤ S.faults s.new k }
    ensures cause { (k : Kind) → halted_by result ≡ Some k → Rose (S.faults s.old k) (S.faults s.new k) }
{
    if is_born {
        return torn_rest(parts.home.config(), parts.me, s);
    }
    Ok(None)
}

/// The fault of a planning. A page that differs isn't one, since the plan tells it.
fn planning_fault(fault: StepFault) -> StepFault
    requires { IsPlanFault fault }
    ensures fault { IsCallFault result }
    ensures same { (k : Kind) → halts_at result ≡ Some k → halts_at fault ≡ Some k }
{
    match fault {
        StepFault::Differs { .. } => StepFault::NoMemory,
        StepFault::NoMemory => StepFault::NoMemory,
        StepFault::Halted { call, kept } => StepFault::Halted { call, kept },
    }
}

/// Whether the plans of an install leave a table exactly where the node owns the partition in the view, there
/// is one for each partition unless a page differs, and that page was read with another number than it must
/// have.
fn is_apt(parts: &Parts, view: &View, plan: &InstallPlan) -> bool
    requires parts { AreParts parts.now }
    requires nodes { length view.now.live ≡ parts.now.home.config.nodes }
    ensures { result ≡ true → IsApt parts.now view.now plan.now }
{
    let whole = match &plan.differs {
        None => plan.plans.len() == parts.home.config().nodes() as usize,
        Some(at) => at.expected != at.found,
    };
    whole && are_apt(parts, view, plan.plans.as_slice(), 0)
}

/// All memory of an install, with what else is ready.
fn with_memory(
    parts: &Parts,
    view: &View,
    is_born: bool,
    keep: Option<u64>,
    plan: InstallPlan,
    out: &mut Outputs,
) -> Result<Ready, StepFault>
    ensures fault { IfErr result (λ e. e ≡ no_memory) }
    ensures view { IfOk result (λ r. r.view ≡ view.now) }
    ensures born { IfOk result (λ r. r.is_born ≡ is_born) }
    ensures keep { IfOk result (λ r. r.keep ≡ keep) }
    ensures plan { IfOk result (λ r. r.plan ≡ plan) }
    ensures list { IfOk result (λ r. Lists r.memory.list parts.now.home) }
    ensures memory { IfOk result (λ r. HasMemoryFor (needs_of_all plan.plans.items) r.memory.stock out.new) }
    ensures size { IfOk result (λ r. r.memory.stock.size ≡ parts.now.home.config.size) }
    ensures further { OnOk result ((needs_of_all plan.plans.items).replies + 1 ≤ out.new.reply_room) }
    ensures none { IfOk result (λ r. r.none ≡ record { config = parts.now.home.config; places = replicate parts.now.home.config.nodes None }) }
    ensures lists { HasSame out.old out.new }
{
    let needs = needs_of_all(plan.plans.as_slice())?;
    let memory = take_memory(parts, needs, 1, out)?;
    let none = Tables::open(parts.alloc, parts.home.config())?;
    let view = view.copy()?;
    Ok(Ready {
        view,
        is_born,
        keep,
        plan,
        memory,
        none,
    })
}
