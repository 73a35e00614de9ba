ghost use Rattle.std.specs.Prelude.{◌≡◌, ◌≢◌, ◌≤◌, ℕ, map, List, Option, Some, None, IfSome, IfErr, OnOk};
ghost use Rattle.pcl_base.specs.Faults.{Rose};
ghost use Rattle.pcl_base.specs.declared.trace.Call.{Call as CallKind};
ghost use Rattle.disk_model.specs.Disk.{HasSizes};
ghost use Rattle.redo_log.specs.Told.{NoneFails};
ghost use Rattle.run_rules.specs.Disk.{Disk};
ghost use Rattle.home.specs.Device.{told_by};
ghost use Rattle.home.specs.Moves.{MoveListView, Lists};
ghost use Rattle.install_plans.specs.Plans.{RedoesOwn, writes_by};
ghost use Rattle.page_owner.specs.Carry.{SameNode, halted_by};
ghost use Rattle.page_owner.specs.Writes.{after_calls};
ghost use Rattle.partition_steps.specs.Carried.{CanWrite, IsRedoFault, LeavesWrites, cleaned, redo_calls};
ghost use Rattle.partition_steps.specs.Stays.{StaysFor};

use disk_model::{Call, Storage};
use home::Home;
use node_parts::StepFault;
use partition_redo::Planned;
use pcl_base::PageNo;

// The pages that redo writes.

/// Writes the pages of a planned redo, if there is one; their copies are clean then. It takes no memory.
pub(crate) fn write_redo<S: Storage>(
    home: &mut Home,
    redo: Option<Planned>,
    s: &mut S,
) -> Result<(), StepFault>
    requires sizes { HasSizes home.old.config (S.pages s.old) (S.logs s.old) (S.rooms s.old) }
    requires redo { IfSome redo (CanWrite home.old.config home.old.txs.node (S.pages s.old) (S.logs s.old)) }
    ensures home { OnOk result ((d : Disk) → S.pages s.old ≡ Some d.pages → S.logs s.old ≡ Some d.logs → home.new ≡ cleaned home.old (map (λ x. x.page) (writes_by d redo))) }
    ensures done { OnOk result ((d : Disk) → S.pages s.old ≡ Some d.pages → S.logs s.old ≡ Some d.logs → S.pages s.new ≡ Some (after_calls d.pages (redo_calls d redo))) }
    ensures made { (d : Disk) → S.pages s.old ≡ Some d.pages → S.logs s.old ≡ Some d.logs → LeavesWrites home.old.txs.node result (redo_calls d redo) (told_by (S.pages s.old) (S.logs s.old) (S.stops s.old)) (told_by (S.pages s.new) (S.logs s.new) (S.stops s.new)) }
    ensures others { (q r : ℕ) → IfSome redo (RedoesOwn home.old.config q) → r ≢ q → StaysFor home.old.config r (S.pages s.old) (S.logs s.old) (S.pages s.new) (S.logs s.new) }
    ensures same { SameNode home.old home.new }
    ensures listed { (list : MoveListView) → Lists list home.old → Lists list home.new }
    ensures fault { IfErr result IsRedoFault }
    ensures sizes { HasSizes home.old.config (S.pages s.new) (S.logs s.new) (S.rooms s.new) }
    ensures logs { S.logs s.new ≡ S.logs s.old }
    ensures rooms { S.rooms s.new ≡ S.rooms s.old }
    ensures calm { (l : List (Option ℕ)) → NoneFails (S.failing s.old) home.old.txs.node l → NoneFails (S.failing s.new) home.old.txs.node l }
    ensures quiet { (l : List (Option ℕ)) (k : CallKind) → NoneFails (S.failing s.old) home.old.txs.node l → halted_by result ≡ Some k → k ≡ Call.Write }
    ensures counts { (k : CallKind) → S.faults s.old k ≤ S.faults s.new k }
    ensures cause { (k : CallKind) → halted_by result ≡ Some k → Rose (S.faults s.old k) (S.faults s.new k) }
{
    match redo {
        None => Ok(()),
        Some(plan) => apply_redo(home, plan, s),
    }
}

/// The same of a redo.
fn apply_redo<S: Storage>(home: &mut Home, plan: Planned, s: &mut S) -> Result<(), StepFault>
    requires sizes { HasSizes home.old.config (S.pages s.old) (S.logs s.old) (S.rooms s.old) }
    requires redo { CanWrite home.old.config home.old.txs.node (S.pages s.old) (S.logs s.old) plan }
    ensures home { OnOk result ((d : Disk) → S.pages s.old ≡ Some d.pages → S.logs s.old ≡ Some d.logs → home.new ≡ cleaned home.old (map (λ x. x.page) (writes_by d (Some plan)))) }
    ensures done { OnOk result ((d : Disk) → S.pages s.old ≡ Some d.pages → S.logs s.old ≡ Some d.logs → S.pages s.new ≡ Some (after_calls d.pages (redo_calls d (Some plan)))) }
    ensures made { (d : Disk) → S.pages s.old ≡ Some d.pages → S.logs s.old ≡ Some d.logs → LeavesWrites home.old.txs.node result (redo_calls d (Some plan)) (told_by (S.pages s.old) (S.logs s.old) (S.stops s.old)) (told_by (S.pages s.new) (S.logs s.new) (S.stops s.new)) }
    ensures others { (q r : ℕ) → RedoesOwn home.old.config q plan → r ≢ q → StaysFor home.old.config r (S.pages s.old) (S.logs s.old) (S.pages s.new) (S.logs s.new) }
    ensures same { SameNode home.old home.new }
    ensures listed { (list : MoveListView) → Lists list home.old → Lists list home.new }
    ensures fault { IfErr result IsRedoFault }
    ensures sizes { HasSizes home.old.config (S.pages s.new) (S.logs s.new) (S.rooms s.new) }
    ensures logs { S.logs s.new ≡ S.logs s.old }
    ensures rooms { S.rooms s.new ≡ S.rooms s.old }
    ensures calm { (l : List (Option ℕ)) → NoneFails (S.failing s.old) home.old.txs.node l → NoneFails (S.failing s.new) home.old.txs.node l }
    ensures quiet { (l : List (Option ℕ)) (k : CallKind) → NoneFails (S.failing s.old) home.old.txs.node l → halted_by result ≡ Some k → k ≡ Call.Write }
    ensures counts { (k : CallKind) → S.faults s.old k ≤ S.faults s.new k }
    ensures cause { (k : CallKind) → halted_by result ≡ Some k → Rose (S.faults s.old k) (S.faults s.new k) }
{
    let mut plan = plan;
    match plan.apply(s) {
        Err(call) => Err(StepFault::Halted { call, kept: None }),
        Ok(()) => {
            clean_all(home, plan.writes());
            Ok(())
        }
    }
}

/// The copies of these pages are clean. It takes no memory.
fn clean_all(home: &mut Home, pages: &[PageNo])
    ensures { home.new ≡ cleaned home.old pages.now }
{
    for page in pages {
        home.clean(*page);
    }
}
