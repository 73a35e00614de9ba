ghost use Rattle.std.specs.Prelude.{◌≡◌, ◌≢◌, ℕ, ◌<◌, ◌≤◌, ◌+◌, ◌⊎◌, ◌++◌, ◌∷◌, [], List, Option, Some, None, All, map, drop, length, OnOk, IfOk, IfErr, slice_index};
ghost use Rattle.std.specs.List.{AllByRecursion};
ghost use Rattle.pcl_base.specs.Faults.{Rose};
ghost use Rattle.pcl_base.specs.declared.trace.Call.{Call as Kind};
ghost use Rattle.disk_model.specs.Disk.{told_at, IsIn, HasLength, HasSizes};
ghost use Rattle.run_rules.specs.Disk.{Disk};
ghost use Rattle.redo_log.specs.Told.{NoneFails};
ghost use Rattle.page_store.specs.declared.fault.RedoFault.TheVariants.{Failed as failed, NoMemory as no_memory};
ghost use Rattle.partition_redo.specs.Index.{base_of, ranges_of};
ghost use Rattle.partition_redo.specs.Chains.{AllStand, IsStoredOne, AreAll, IsChain, IsNewer, IsRedone, IsGiven, IsListed, AnswersStored, NamesOther, NamesFirst, NamesRead, first_bad, written_pages};

use crate::index::Index;
use crate::planned::Planned;
use crate::site::Chain;
use crate::walked::index_logs;
use disk_model::{Call, Storage};
use page_store::{PageFault, RedoFault, read};
use pcl_base::{Config, Items, NoMemory, NodeNo, PageNo, Version};
use std::alloc::Global;

/// The bytes of a stored page, which are zero.
fn stored_zero(alloc: Global, config: &Config) -> Result<Vec<u8>, RedoFault>
    ensures length { IfOk result (λ raw. length raw.items ≡ config.now.size + 16) }
    ensures fault { IfErr result (λ e. e ≡ no_memory) }
{
    match vec![in alloc; 0u8; config.size() as usize + 16] {
        Ok(raw) => Ok(raw),
        Err(_) => Err(RedoFault::NoMemory),
    }
}

/// The version of a stored page, which is read into `raw`.
pub(crate) fn stored_version<S: Storage>(
    s: &mut S,
    by: NodeNo,
    page: PageNo,
    raw: &mut [u8],
) -> Result<Version, RedoFault>
    requires by { IsIn (S.logs s.old) by }
    requires page { IsIn (S.pages s.old) page }
    requires length { HasLength (told_at (S.pages s.old) page) (length raw.old) }
    requires size { 16 ≤ length raw.old }
    ensures value { (d : Disk) → S.pages s.old ≡ Some d.pages → AnswersStored d page (drop 16 raw.new) result }
    ensures other { IfErr result NamesOther }
    ensures faults { IfErr result NamesRead }
    ensures pages { S.pages s.new ≡ S.pages s.old }
    ensures logs { S.logs s.new ≡ S.logs s.old }
    ensures rooms { S.rooms s.new ≡ S.rooms s.old }
    ensures stops { S.stops s.new ≡ S.stops s.old }
    ensures calm { (l : List (Option ℕ)) → NoneFails (S.failing s.old) by l → NoneFails (S.failing s.new) by l }
    ensures quiet { (l : List (Option ℕ)) (k : Kind) → NoneFails (S.failing s.old) by l → IfErr result (λ e. e ≢ failed k) }
    ensures counts { (k : Kind) → S.faults s.old k ≤ S.faults s.new k }
    ensures cause { (k : Kind) → IfErr result (λ e. e ≡ failed k → Rose (S.faults s.old k) (S.faults s.new k)) }
{
    match read(s, by, page, raw) {
        Ok(version) => Ok(version),
        Err(PageFault::Failed) => Err(RedoFault::Failed(Call::Read)),
        Err(PageFault::BadPage { expected, found }) => Err(RedoFault::BadPage {
            page,
            expected,
            found,
        }),
    }
}

/// Lists pages with the versions of their stored pages, which are read in this order.
fn list_pages<S: Storage>(
    s: &mut S,
    config: &Config,
    by: NodeNo,
    pages: &[PageNo],
    raw: &mut [u8],
    index: &mut Index,
) -> Result<(), RedoFault>
    requires sizes { HasSizes config.now (S.pages s.old) (S.logs s.old) (S.rooms s.old) }
    requires by { by < config.now.nodes }
    requires below { All (λ p. p < config.now.pages) pages.now }
    requires length { length raw.old ≡ config.now.size + 16 }
    ensures listed { OnOk result ((d : Disk) (k : ℕ) → S.pages s.old ≡ Some d.pages → k < length pages.now → IsListed d index.new (slice_index pages.now k)) }
    ensures ranges { OnOk result (index.new.ranges ≡ index.old.ranges) }
    ensures plain { OnOk result ((p : ℕ) → IsStoredOne (base_of index.old p) → IsStoredOne (base_of index.new p)) }
    ensures first { (d : Disk) → S.pages s.old ≡ Some d.pages → IfErr result (NamesFirst d pages.now) }
    ensures good { OnOk result ((d : Disk) → S.pages s.old ≡ Some d.pages → first_bad d pages.now ≡ None) }
    ensures other { IfErr result NamesOther }
    ensures faults { IfErr result NamesRead }
    ensures pages { S.pages s.new ≡ S.pages s.old }
    ensures logs { S.logs s.new ≡ S.logs s.old }
    ensures rooms { S.rooms s.new ≡ S.rooms s.old }
    ensures stops { S.stops s.new ≡ S.stops s.old }
    ensures calm { (l : List (Option ℕ)) → NoneFails (S.failing s.old) by l → NoneFails (S.failing s.new) by l }
    ensures quiet { (l : List (Option ℕ)) (k : Kind) → NoneFails (S.failing s.old) by l → IfErr result (λ e. e ≢ failed k) }
    ensures counts { (k : Kind) → S.faults s.old k ≤ S.faults s.new k }
    ensures cause { (k : Kind) → IfErr result (λ e. e ≡ failed k → Rose (S.faults s.old k) (S.faults s.new k)) }
{
    for page in pages {
        let version = stored_version(s, by, *page, raw)?;
        index.list(*page, version)?;
    }
    Ok(())
}

/// The chain of each listed page.
fn chains_of(alloc: Global, index: &Index, pages: &[PageNo]) -> Result<Items<Chain>, NoMemory>
    ensures { IfOk result (λ xs. AreAll (IsGiven index.now) pages.now xs) }
{
    let mut chains = Items::new(alloc);
    for page in pages {
        chains.push(index.chain(alloc, *page)?)?;
    }
    Ok(chains)
}

/// The page and the version of each chain.
fn versions_of(alloc: Global, chains: &[Chain]) -> Result<Vec<(PageNo, Version)>, NoMemory>
    ensures { IfOk result (λ vs. vs.items ≡ map (λ x. (x.page, x.version)) chains.now) }
{
    let mut versions = Vec::new(alloc);
    for chain in chains {
        versions.push((chain.page, chain.version))?;
    }
    Ok(versions)
}

/// The pages of the chains that have entries.
fn writes_of(alloc: Global, chains: &[Chain]) -> Result<Vec<PageNo>, NoMemory>
    ensures { IfOk result (λ ps. ps.items ≡ written_pages chains.now) }
{
    let mut pages = Vec::new(alloc);
    for chain in chains {
        add_write(&mut pages, chain)?;
    }
    Ok(pages)
}

/// Adds the page of a chain, where that has entries.
fn add_write(pages: &mut Vec<PageNo>, chain: &Chain) -> Result<(), NoMemory>
    ensures { OnOk result (pages.new.items ≡ pages.old.items ++ written_pages (chain.now ∷ [])) }
{
    if chain.sites.is_empty() {
        return Ok(());
    }
    pages.push(chain.page)?;
    Ok(())
}

/// Plans the redo of some pages: it reads their stored pages and walks all logs, takes all memory
/// that the redo needs, and writes nothing. Pages are below `P`.
///
/// `Failed` comes only where the storage's count of that kind of call rose, and that is a read of a
/// page or of a log. `BadPage` names the first of the pages whose stored number is neither 0 nor the
/// page's number plus one.
pub fn prepare<S: Storage>(
    alloc: Global,
    s: &mut S,
    config: &Config,
    by: NodeNo,
    pages: &Vec<PageNo>,
) -> Result<Planned, RedoFault>
    requires sizes { HasSizes config.now (S.pages s.old) (S.logs s.old) (S.rooms s.old) }
    requires by { by < config.now.nodes }
    requires below { All (λ p. p < config.now.pages) pages.now.items }
    ensures chains { IfOk result (λ plan. (d : Disk) → S.pages s.old ≡ Some d.pages → S.logs s.old ≡ Some d.logs → AllByRecursion (IsChain config.now d) plan.chains) }
    ensures newer { IfOk result (λ plan. (d : Disk) → S.pages s.old ≡ Some d.pages → S.logs s.old ≡ Some d.logs → AllByRecursion (IsNewer d) plan.chains) }
    ensures redone { IfOk result (λ plan. (d : Disk) → S.pages s.old ≡ Some d.pages → S.logs s.old ≡ Some d.logs → AreAll (IsRedone config.now d) pages.now.items plan.versions) }
    ensures stand { IfOk result (λ plan. (d : Disk) → S.logs s.old ≡ Some d.logs → AllStand config.now d plan.chains) }
    ensures below { IfOk result (λ plan. AllByRecursion (λ x. x.page < config.now.pages) plan.chains) }
    ensures named { IfOk result (λ plan. map (λ v. v.0) plan.versions ≡ pages.now.items) }
    ensures listed { IfOk result (λ plan. map (λ x. x.page) plan.chains ≡ pages.now.items) }
    ensures config { IfOk result (λ plan. plan.config ≡ config.now) }
    ensures node { IfOk result (λ plan. plan.by ≡ by) }
    ensures first { (d : Disk) → S.pages s.old ≡ Some d.pages → IfErr result (NamesFirst d pages.now.items) }
    ensures good { OnOk result ((d : Disk) → S.pages s.old ≡ Some d.pages → first_bad d pages.now.items ≡ None) }
    ensures other { IfErr result NamesOther }
    ensures faults { IfErr result NamesRead }
    ensures pages { S.pages s.new ≡ S.pages s.old }
    ensures logs { S.logs s.new ≡ S.logs s.old }
    ensures rooms { S.rooms s.new ≡ S.rooms s.old }
    ensures stops { S.stops s.new ≡ S.stops s.old }
    ensures calm { (l : List (Option ℕ)) → NoneFails (S.failing s.old) by l → NoneFails (S.failing s.new) by l }
    ensures quiet { (l : List (Option ℕ)) (k : Kind) → NoneFails (S.failing s.old) by l → IfErr result (λ e. e ≢ failed k) }
    ensures counts { (k : Kind) → S.faults s.old k ≤ S.faults s.new k }
    ensures cause { (k : Kind) → IfErr result (λ e. e ≡ failed k → Rose (S.faults s.old k) (S.faults s.new k)) }
{
    let mut raw = stored_zero(alloc, config)?;
    let mut index = Index::new(alloc);
    list_pages(
        s,
        config,
        by,
        pages.as_slice(),
        raw.as_mut_slice(),
        &mut index,
    )?;
    index_logs(s, config, by, &mut index)?;
    match make_plan(alloc, config, by, &index, pages.as_slice(), raw) {
        Ok(plan) => Ok(plan),
        Err(NoMemory) => Err(RedoFault::NoMemory),
    }
}

/// The plan that an index gives for some pages, with the memory of a stored page.
fn make_plan(
    alloc: Global,
    config: &Config,
    by: NodeNo,
    index: &Index,
    pages: &[PageNo],
    raw: Vec<u8>,
) -> Result<Planned, NoMemory>
    requires by { by < config.now.nodes }
    requires below { All (λ p. p < config.now.pages) pages.now }
    requires length { length raw.items ≡ config.now.size + 16 }
    ensures given { IfOk result (λ plan. AreAll (IsGiven index.now) pages.now plan.chains) }
    ensures versions { IfOk result (λ plan. plan.versions ≡ map (λ x. (x.page, x.version)) plan.chains) }
    ensures config { IfOk result (λ plan. plan.config ≡ config.now) }
    ensures node { IfOk result (λ plan. plan.by ≡ by) }
{
    let chains = chains_of(alloc, index, pages)?;
    let versions = versions_of(alloc, chains.as_slice())?;
    let writes = writes_of(alloc, chains.as_slice())?;
    Ok(Planned {
        config: *config,
        by,
        versions,
        writes,
        chains,
        raw,
    })
}
