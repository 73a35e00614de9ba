ghost use Rattle.std.specs.Prelude.{◌≡◌, ◌≢◌, ℕ, ◌<◌, ◌≤◌, List, Option, Some, None, All, map, OnOk, IfOk, IfErr};
ghost use Rattle.std.specs.List.{AllByRecursion};
ghost use Rattle.pcl_base.specs.Faults.{Rose};
ghost use Rattle.pcl_base.specs.declared.trace.Call.{Call as Kind};
ghost use Rattle.disk_model.specs.Disk.{HasSizes};
ghost use Rattle.run_rules.specs.Disk.{Disk, raw_page};
ghost use Rattle.run_rules.specs.Redo.{all_records, redo as redo_of};
ghost use Rattle.redo_log.specs.Told.{NoneFails};
ghost use Rattle.page_store.specs.declared.fault.RedoFault.TheVariants.{Failed as failed};
ghost use Rattle.partition_redo.specs.Chains.{AreAll, IsRedone, NamesOther, NamesFirst, NamesCall, first_bad};
ghost use Rattle.partition_redo.specs.Writes.{Ended, redo_pages, with_pages, IsStored, AreEither};

use crate::plan::prepare;
use disk_model::{Call, Storage};
use page_store::RedoFault;
use pcl_base::{Config, NodeNo, PageNo, Version};
use std::alloc::Global;

/// Redoes some pages by version: each page that is newer by the whole records of all logs than its
/// stored page is written, in the order given. It answers each page with its version. Pages are
/// below `P`, nodes below `N`. It is `prepare` and then `apply`.
///
/// `Failed` comes only where the storage's count of that kind of call rose; each page is then the
/// old one or the one that the redo gives, and redo of each page is as before. `BadPage` names the
/// first of the pages whose stored number is neither 0 nor the page's number plus one; with it, and
/// with `NoMemory`, nothing was written and the armed stops are as before.
pub fn redo<S: Storage>(
    alloc: Global,
    s: &mut S,
    config: &Config,
    by: NodeNo,
    pages: &Vec<PageNo>,
) -> Result<Vec<(PageNo, Version)>, RedoFault>
    requires sizes { HasSizes config.now (S.pages s.old) (S.logs s.old) (S.rooms s.old) }
    requires by { by < config.now.nodes }
    requires below { All (λ p. p < config.now.pages) pages.now.items }
    ensures named { IfOk result (λ vs. map (λ v. v.0) vs.items ≡ pages.now.items) }
    ensures versions { IfOk result (λ vs. (d : Disk) → S.pages s.old ≡ Some d.pages → S.logs s.old ≡ Some d.logs → AreAll (IsRedone config.now d) pages.now.items vs.items) }
    ensures done { OnOk result ((d : Disk) → S.pages s.old ≡ Some d.pages → S.logs s.old ≡ Some d.logs → S.pages s.new ≡ Some (redo_pages (all_records config.now d) d.pages pages.now.items)) }
    ensures redone { OnOk result ((d : Disk) (l : List (List ℕ)) → S.pages s.old ≡ Some d.pages → S.logs s.old ≡ Some d.logs → S.pages s.new ≡ Some l → AllByRecursion (IsStored config.now d l) pages.now.items) }
    ensures ran { (d : Disk) → S.pages s.old ≡ Some d.pages → S.logs s.old ≡ Some d.logs → Ended (all_records config.now d) by pages.now.items d.pages (S.stops s.old) (S.pages s.new) (S.stops s.new) result }
    ensures told { (d : Disk) → S.pages s.old ≡ Some d.pages → S.logs s.old ≡ Some d.logs → (l : List (List ℕ)) × (S.pages s.new ≡ Some l) }
    ensures either { (d : Disk) (l : List (List ℕ)) → S.pages s.old ≡ Some d.pages → S.logs s.old ≡ Some d.logs → S.pages s.new ≡ Some l → AreEither l d.pages (redo_pages (all_records config.now d) d.pages pages.now.items) }
    ensures others { (d : Disk) (l : List (List ℕ)) (p : ℕ) → S.pages s.old ≡ Some d.pages → S.logs s.old ≡ Some d.logs → S.pages s.new ≡ Some l → AllByRecursion (λ q. q ≢ p) pages.now.items → raw_page l p ≡ raw_page d.pages p }
    ensures redo { (d : Disk) (l : List (List ℕ)) (p : ℕ) → S.pages s.old ≡ Some d.pages → S.logs s.old ≡ Some d.logs → S.pages s.new ≡ Some l → redo_of config.now (with_pages d l) p ≡ redo_of config.now d p }
    ensures unwritten { IfErr result (λ e. ((k : Kind) → e ≢ failed k) → S.pages s.new ≡ S.pages s.old) }
    ensures unstopped { IfErr result (λ e. ((k : Kind) → e ≢ failed k) → S.stops s.new ≡ S.stops s.old) }
    ensures first { (d : Disk) → S.pages s.old ≡ Some d.pages → IfErr result (NamesFirst d pages.now.items) }
    ensures good { OnOk result ((d : Disk) → S.pages s.old ≡ Some d.pages → first_bad d pages.now.items ≡ None) }
    ensures other { IfErr result NamesOther }
    ensures faults { IfErr result NamesCall }
    ensures sizes { HasSizes config.now (S.pages s.new) (S.logs s.new) (S.rooms s.new) }
    ensures logs { S.logs s.new ≡ S.logs s.old }
    ensures rooms { S.rooms s.new ≡ S.rooms s.old }
    ensures calm { (l : List (Option ℕ)) → NoneFails (S.failing s.old) by l → NoneFails (S.failing s.new) by l }
    ensures quiet { (l : List (Option ℕ)) (k : Kind) → NoneFails (S.failing s.old) by l → k ≢ Call.Write → IfErr result (λ e. e ≢ failed k) }
    ensures counts { (k : Kind) → S.faults s.old k ≤ S.faults s.new k }
    ensures cause { (k : Kind) → IfErr result (λ e. e ≡ failed k → Rose (S.faults s.old k) (S.faults s.new k)) }
{
    let mut plan = prepare(alloc, s, config, by, pages)?;
    match plan.apply(s) {
        Ok(()) => Ok(plan.into_versions()),
        Err(call) => Err(RedoFault::Failed(call)),
    }
}
