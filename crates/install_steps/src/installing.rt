ghost use Rattle.std.specs.Prelude.{◌≡◌, ◌≤◌, ◌++◌, ◌⊎◌, [], ℕ, List, Option, Some, None, true, length, Err, IfErr};
ghost use Rattle.pcl_base.specs.Faults.{Rose};
ghost use Rattle.pcl_base.specs.declared.trace.Call.{Call as CallKind};
ghost use Rattle.disk_model.specs.Disk.{HasSizes, NotLowered};
ghost use Rattle.redo_log.specs.Told.{NoneFails};
ghost use Rattle.run_rules.specs.Disk.{Disk};
ghost use Rattle.home.specs.Device.{told_by};
ghost use Rattle.node_rules.specs.DiskCalls.{DiskCall};
ghost use Rattle.node_rules.specs.InstallRule.{install_view};
ghost use Rattle.node_rules.specs.NodeState.{Install as installs};
ghost use Rattle.node_rules.specs.Refusals.{refusal};
ghost use Rattle.node_parts.specs.Comes.{Comes, work_of};
ghost use Rattle.node_parts.specs.State.{AreParts, node_of};
ghost use Rattle.node_parts.specs.declared.fault.StepFault.TheVariants.{NoMemory as no_memory};
ghost use Rattle.page_owner.specs.Carry.{HasSame, halted_by};
ghost use Rattle.page_owner.specs.Writes.{after_calls};
ghost use Rattle.install_steps.specs.Calls.{IsInstallFault, IsWorkFault, LeavesCalls, UnlessWanting, install_calls};
ghost use Rattle.install_steps.specs.Births.{is_born_in};
ghost use Rattle.install_steps.specs.Ready.{IsReady};
ghost use Rattle.install_steps.specs.Views.{KeepsNumbers};

use crate::entering::enter;
use crate::leaving::leave;
use crate::ready::{Ready, prepare};
use crate::working::work_off;
use authority_map::View;
use disk_model::{Call, Storage};
use install_plans::InstallPlan;
use node_parts::{Outputs, Parts, StepFault};

/// Installs a view that the rules don't refuse: the node is in it from now on and replies `Installed`; where
/// it is born in it, it begins its life and trims the torn rest of its log. Then each partition, rising, is
/// turned over, redone, put and settled as the rules say. All is planned, and all memory taken, before the
/// first change: `NoMemory` leaves all as before. It is answered too where a node that is born in the view has
/// begun a transaction, or the plans don't leave a table exactly where the node owns the partition.
///
/// `Halted` comes where a page or a log couldn't be read, the log couldn't be trimmed or a page couldn't be
/// written; `Differs` names the page that was read with another number or version than it must have. After
/// these two the node is in no view, and may only be lost.
pub fn install<S: Storage>(
    parts: &mut Parts,
    view: &View,
    s: &mut S,
    out: &mut Outputs,
) -> Result<(), StepFault>
    requires parts { AreParts parts.old }
    requires nodes { length view.now.live ≡ parts.old.home.config.nodes }
    requires none { refusal (node_of parts.old) (installs view.now) ≡ None }
    requires sizes { HasSizes parts.old.home.config (S.pages s.old) (S.logs s.old) (S.rooms s.old) }
    ensures comes { (d : Disk) (cs : List DiskCall) → S.pages s.old ≡ Some d.pages → S.logs s.old ≡ Some d.logs → Comes (install_view d view.now (work_of (node_of parts.old) d.pages cs out.old)) result (work_of (node_of parts.new) (after_calls d.pages (install_calls d view.now (node_of parts.old))) (cs ++ install_calls d view.now (node_of parts.old)) out.new) }
    ensures made { (d : Disk) → S.pages s.old ≡ Some d.pages → S.logs s.old ≡ Some d.logs → LeavesCalls parts.old.me result (install_calls d view.now (node_of parts.old)) (told_by (S.pages s.old) (S.logs s.old) (S.stops s.old)) (told_by (S.pages s.new) (S.logs s.new) (S.stops s.new)) }
    ensures parts { AreParts parts.new }
    ensures node { result ≡ Err no_memory → parts.new ≡ parts.old }
    ensures lists { result ≡ Err no_memory → HasSame out.old out.new }
    ensures told { result ≡ Err no_memory → told_by (S.pages s.new) (S.logs s.new) (S.stops s.new) ≡ told_by (S.pages s.old) (S.logs s.old) (S.stops s.old) }
    ensures unbegun { UnlessWanting result (is_born_in view.now (node_of parts.old) ≡ true → parts.old.home.txs.txs ≡ []) }
    ensures same { KeepsNumbers parts.old parts.new }
    ensures fault { IfErr result IsInstallFault }
    ensures sizes { HasSizes parts.old.home.config (S.pages s.new) (S.logs s.new) (S.rooms s.new) }
    ensures rooms { NotLowered (S.rooms s.old) (S.rooms s.new) }
    ensures calm { (l : List (Option ℕ)) → NoneFails (S.failing s.old) parts.old.me l → NoneFails (S.failing s.new) parts.old.me l }
    ensures quiet { (l : List (Option ℕ)) (k : CallKind) → NoneFails (S.failing s.old) parts.old.me l → halted_by result ≡ Some k → (k ≡ Call.Write) ⊎ (k ≡ Call.Trim) }
    ensures counts { (k : CallKind) → S.faults s.old k ≤ S.faults s.new k }
    ensures cause { (k : CallKind) → halted_by result ≡ Some k → Rose (S.faults s.old k) (S.faults s.new k) }
{
    match prepare(parts, view, s, out) {
        Ok(ready) => carry_out(parts, ready, s, out),
        Err(fault) => Err(fault),
    }
}

/// Carries an install out for which all is ready. It takes no memory, and never wants any.
fn carry_out<S: Storage>(
    parts: &mut Parts,
    ready: Ready,
    s: &mut S,
    out: &mut Outputs,
) -> Result<(), StepFault>
    requires parts { AreParts parts.old }
    requires nodes { length ready.view.live ≡ parts.old.home.config.nodes }
    requires none { refusal (node_of parts.old) (installs ready.view) ≡ None }
    requires ready { IsReady parts.old ready.view (S.pages s.old) (S.logs s.old) out.old ready }
    requires sizes { HasSizes parts.old.home.config (S.pages s.old) (S.logs s.old) (S.rooms s.old) }
    ensures comes { (d : Disk) (cs : List DiskCall) → S.pages s.old ≡ Some d.pages → S.logs s.old ≡ Some d.logs → Comes (install_view d ready.view (work_of (node_of parts.old) d.pages cs out.old)) result (work_of (node_of parts.new) (after_calls d.pages (install_calls d ready.view (node_of parts.old))) (cs ++ install_calls d ready.view (node_of parts.old)) out.new) }
    ensures made { (d : Disk) → S.pages s.old ≡ Some d.pages → S.logs s.old ≡ Some d.logs → LeavesCalls parts.old.me result (install_calls d ready.view (node_of parts.old)) (told_by (S.pages s.old) (S.logs s.old) (S.stops s.old)) (told_by (S.pages s.new) (S.logs s.new) (S.stops s.new)) }
    ensures parts { AreParts parts.new }
    ensures same { KeepsNumbers parts.old parts.new }
    ensures fault { IfErr result IsWorkFault }
    ensures sizes { HasSizes parts.old.home.config (S.pages s.new) (S.logs s.new) (S.rooms s.new) }
    ensures rooms { NotLowered (S.rooms s.old) (S.rooms s.new) }
    ensures calm { (l : List (Option ℕ)) → NoneFails (S.failing s.old) parts.old.me l → NoneFails (S.failing s.new) parts.old.me l }
    ensures quiet { (l : List (Option ℕ)) (k : CallKind) → NoneFails (S.failing s.old) parts.old.me l → halted_by result ≡ Some k → (k ≡ Call.Write) ⊎ (k ≡ Call.Trim) }
    ensures counts { (k : CallKind) → S.faults s.old k ≤ S.faults s.new k }
    ensures cause { (k : CallKind) → halted_by result ≡ Some k → Rose (S.faults s.old k) (S.faults s.new k) }
{
    let Ready {
        view,
        is_born,
        keep,
        plan,
        memory,
        none,
    } = ready;
    let InstallPlan { plans, differs } = plan;
    enter(parts, view, is_born, out);
    match work_off(parts, keep, plans, differs, memory, s, out) {
        Ok(()) => Ok(()),
        Err(fault) => {
            leave(parts, none);
            Err(fault)
        }
    }
}
