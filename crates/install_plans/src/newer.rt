ghost use Rattle.std.specs.Prelude.{◌≡◌, ◌<◌, ◌≤◌, ◌==◌, ◌&&◌, ℕ, nat_lt, not, List, Option, Some, None, All, length, map, IfOk, IfErr, IfSome};
ghost use Rattle.std.specs.List.{filter};
ghost use Rattle.pcl_base.specs.Faults.{Rose};
ghost use Rattle.pcl_base.specs.declared.trace.Call.{Call as Kind};
ghost use Rattle.disk_model.specs.Disk.{HasSizes};
ghost use Rattle.run_rules.specs.Disk.{Disk};
ghost use Rattle.run_rules.specs.Redo.{greatest, records_in};
ghost use Rattle.run_rules.specs.Views.{is_live};
ghost use Rattle.node_rules.specs.LockTable.{entry_at, pages_of};
ghost use Rattle.node_rules.specs.InstallRule.{live_before, lost_nodes};
ghost use Rattle.install_laws.specs.InstallPlans.{is_newer};
ghost use Rattle.lock_table.specs.Tables.{IsPageOf, table_of};
ghost use Rattle.redo_log.specs.Told.{NoneFails};
ghost use Rattle.rebuild.specs.Parts.{IsTableOf};
ghost use Rattle.install_plans.specs.Plans.{IsCallFault, halted_by};

use crate::planner::Planner;
use crate::redo::partition_pages;
use authority_map::View;
use disk_model::Storage;
use lock_table::Table;
use node_parts::StepFault;
use page_store::RedoFault;
use partition_redo::newest;
use pcl_base::{NoMemory, NodeNo, PageNo, Version};

/// The pages of a partition of which some logs have a newer version than the table, rising. Where
/// there is no such log, nothing is read.
pub(crate) fn newer_pages<S: Storage>(
    by: &Planner,
    t: &Table,
    logs: &Vec<NodeNo>,
    s: &mut S,
) -> Result<Vec<PageNo>, StepFault>
    requires sizes { HasSizes by.now.config (S.pages s.old) (S.logs s.old) (S.rooms s.old) }
    requires me { by.now.me < by.now.config.nodes }
    requires table { IsTableOf by.now.config t.now }
    requires nodes { All (λ n. n < by.now.config.nodes) logs.now.items }
    ensures newer { (d : Disk) → S.logs s.old ≡ Some d.logs → IfOk result (λ ps. ps.items ≡ filter (is_newer (records_in by.now.config d logs.now.items) (table_of t.now)) (pages_of by.now.config t.now.partition)) }
    ensures own { IfOk result (λ ps. All (IsPageOf t.now) ps.items) }
    ensures fault { IfErr result IsCallFault }
    ensures pages { S.pages s.new ≡ S.pages s.old }
    ensures logs { S.logs s.new ≡ S.logs s.old }
    ensures rooms { S.rooms s.new ≡ S.rooms s.old }
    ensures stops { S.stops s.new ≡ S.stops s.old }
    ensures calm { (l : List (Option ℕ)) → NoneFails (S.failing s.old) by.now.me l → NoneFails (S.failing s.new) by.now.me l }
    ensures quiet { (l : List (Option ℕ)) → NoneFails (S.failing s.old) by.now.me l → halted_by result ≡ None }
    ensures counts { (k : Kind) → S.faults s.old k ≤ S.faults s.new k }
    ensures cause { (k : Kind) → halted_by result ≡ Some k → Rose (S.faults s.old k) (S.faults s.new k) }
{
    if logs.is_empty() {
        return Ok(Vec::new(by.alloc));
    }
    let pages = partition_pages(by, t.partition())?;
    let versions = newest_in(by, &pages, logs, s)?;
    Ok(newer_of(by, t, pages.as_slice(), versions.as_slice())?)
}

/// The greatest version of each of some pages in some logs, or 0.
fn newest_in<S: Storage>(
    by: &Planner,
    pages: &Vec<PageNo>,
    logs: &Vec<NodeNo>,
    s: &mut S,
) -> Result<Vec<Version>, StepFault>
    requires sizes { HasSizes by.now.config (S.pages s.old) (S.logs s.old) (S.rooms s.old) }
    requires me { by.now.me < by.now.config.nodes }
    requires nodes { All (λ n. n < by.now.config.nodes) logs.now.items }
    ensures versions { (d : Disk) → S.logs s.old ≡ Some d.logs → IfOk result (λ vs. vs.items ≡ map (greatest (records_in by.now.config d logs.now.items)) pages.now.items) }
    ensures len { IfOk result (λ vs. length vs.items ≡ length pages.now.items) }
    ensures fault { IfErr result IsCallFault }
    ensures pages { S.pages s.new ≡ S.pages s.old }
    ensures logs { S.logs s.new ≡ S.logs s.old }
    ensures rooms { S.rooms s.new ≡ S.rooms s.old }
    ensures stops { S.stops s.new ≡ S.stops s.old }
    ensures calm { (l : List (Option ℕ)) → NoneFails (S.failing s.old) by.now.me l → NoneFails (S.failing s.new) by.now.me l }
    ensures quiet { (l : List (Option ℕ)) → NoneFails (S.failing s.old) by.now.me l → halted_by result ≡ None }
    ensures counts { (k : Kind) → S.faults s.old k ≤ S.faults s.new k }
    ensures cause { (k : Kind) → halted_by result ≡ Some k → Rose (S.faults s.old k) (S.faults s.new k) }
{
    match newest(by.alloc, s, &by.config, by.me, pages, logs) {
        Ok(versions) => Ok(versions),
        Err(RedoFault::NoMemory) => Err(StepFault::NoMemory),
        Err(RedoFault::Failed(call)) => Err(StepFault::Halted { call, kept: None }),
        Err(RedoFault::BadPage { .. }) => unreachable!(),
    }
}

/// The pages whose version in the table is below the one at the same place of a list.
fn newer_of(
    by: &Planner,
    t: &Table,
    pages: &[PageNo],
    versions: &[Version],
) -> Result<Vec<PageNo>, NoMemory>
    requires pages { All (IsPageOf t.now) pages.now }
    requires len { length versions.now ≡ length pages.now }
    ensures newer { (f : ℕ → ℕ) → versions.now ≡ map f pages.now → IfOk result (λ ps. ps.items ≡ filter (λ p. nat_lt (entry_at (table_of t.now) p).version (f p)) pages.now) }
    ensures own { IfOk result (λ ps. All (IsPageOf t.now) ps.items) }
{
    let mut newer = Vec::new(by.alloc);
    for place in 0..pages.len() {
        let page = pages[place];
        if t.version(page) < versions[place] {
            newer.push(page)?;
        }
    }
    Ok(newer)
}

/// The nodes that were live in the view before, if there was one, and aren't in the view.
pub(crate) fn lost_nodes(
    by: &Planner,
    before: &Option<View>,
    view: &View,
) -> Result<Vec<NodeNo>, NoMemory>
    requires before { IfSome before.now (λ v. length v.live ≡ by.now.config.nodes) }
    requires nodes { length view.now.live ≡ by.now.config.nodes }
    ensures lost { IfOk result (λ ns. ns.items ≡ lost_nodes before.now view.now) }
    ensures below { IfOk result (λ ns. All (λ n. n < by.now.config.nodes) ns.items) }
{
    let mut lost = Vec::new(by.alloc);
    for node in 0..by.config.nodes() as u8 {
        if is_lost(before, view, node) {
            lost.push(node)?;
        }
    }
    Ok(lost)
}

/// Whether a node was live in the view before, if there was one, and isn't in the view.
fn is_lost(before: &Option<View>, view: &View, node: NodeNo) -> bool
    requires before { IfSome before.now (λ v. node < length v.live) }
    requires node { node < length view.now.live }
    ensures { result ≡ (live_before before.now node && not (is_live view.now.live node)) }
{
    was_live(before, node) && !view.live(node)
}

/// Whether a node was live in a view, if there was one.
fn was_live(before: &Option<View>, node: NodeNo) -> bool
    requires { IfSome before.now (λ v. node < length v.live) }
    ensures { result ≡ live_before before.now node }
{
    match before {
        None => false,
        Some(view) => view.live(node),
    }
}
