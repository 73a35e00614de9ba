ghost use Rattle.std.specs.Prelude.{◌≡◌, ◌≢◌, ℕ, ◌<◌, ◌≤◌, ◌+◌, ◌^◌, List, [], ◌∷◌, Option, Some, None, drop, map, length, OnOk, IfErr, IsOk};
ghost use Rattle.std.specs.List.{AllByRecursion};
ghost use Rattle.pcl_base.specs.Faults.{Rose};
ghost use Rattle.pcl_base.specs.declared.trace.Call.{Call as Kind};
ghost use Rattle.disk_model.specs.Disk.{IsIn, HasSizes};
ghost use Rattle.disk_model.specs.Causes.{HasCauses};
ghost use Rattle.run_rules.specs.Disk.{Disk};
ghost use Rattle.run_rules.specs.Redo.{all_records};
ghost use Rattle.text_rules.specs.StoredPage.{stored_bytes};
ghost use Rattle.redo_log.specs.Told.{NoneFails};
ghost use Rattle.partition_redo.specs.Chains.{IsSite, AllStand, Leads, IsChain, IsRedoCall};
ghost use Rattle.partition_redo.specs.Writes.{Wrote, Ran};

use crate::plan::stored_version;
use crate::site::{Chain, Site};
use disk_model::{Call, Storage};
use page_store::{RedoFault, write};
use pcl_base::{Config, Failed, NodeNo};
use redo_log::apply_at;

/// Makes each page that is newer by its chain than the stored page, and writes it, in their order.
pub(crate) fn apply_chains<S: Storage>(
    s: &mut S,
    config: &Config,
    by: NodeNo,
    chains: &[Chain],
    raw: &mut [u8],
) -> Result<(), Call>
    requires sizes { HasSizes config.now (S.pages s.old) (S.logs s.old) (S.rooms s.old) }
    requires by { by < config.now.nodes }
    requires below { AllByRecursion (λ x. x.page < config.now.pages) chains.now }
    requires length { length raw.old ≡ config.now.size + 16 }
    requires stand { (d : Disk) → S.logs s.old ≡ Some d.logs → AllStand config.now d chains.now }
    ensures ran { (d : Disk) → S.pages s.old ≡ Some d.pages → S.logs s.old ≡ Some d.logs → AllByRecursion (IsChain config.now d) chains.now → Ran (all_records config.now d) by (map (λ x. x.page) chains.now) d.pages (S.stops s.old) (S.pages s.new) (S.stops s.new) result }
    ensures untold { S.pages s.old ≡ None → S.pages s.new ≡ None }
    ensures sizes { HasSizes config.now (S.pages s.new) (S.logs s.new) (S.rooms s.new) }
    ensures logs { S.logs s.new ≡ S.logs s.old }
    ensures rooms { S.rooms s.new ≡ S.rooms s.old }
    ensures calm { (l : List (Option ℕ)) → NoneFails (S.failing s.old) by l → NoneFails (S.failing s.new) by l }
    ensures quiet { (l : List (Option ℕ)) → NoneFails (S.failing s.old) by l → IfErr result (λ e. e ≡ Call.Write) }
    ensures faults { IfErr result IsRedoCall }
    ensures counts { (k : Kind) → S.faults s.old k ≤ S.faults s.new k }
    ensures cause { (k : Kind) → IfErr result (λ e. e ≡ k → Rose (S.faults s.old k) (S.faults s.new k)) }
{
    for chain in chains {
        apply_chain(s, config, by, chain, raw)?;
    }
    Ok(())
}

/// Makes a page that is newer by its chain than the stored page, and writes it. A page whose chain has
/// no entries isn't read again. A stored page that is bad now, although it was good when the chain was
/// made, is left as it is.
fn apply_chain<S: Storage>(
    s: &mut S,
    config: &Config,
    by: NodeNo,
    chain: &Chain,
    raw: &mut [u8],
) -> Result<(), Call>
    requires sizes { HasSizes config.now (S.pages s.old) (S.logs s.old) (S.rooms s.old) }
    requires by { by < config.now.nodes }
    requires page { chain.now.page < config.now.pages }
    requires length { length raw.old ≡ config.now.size + 16 }
    requires stand { (d : Disk) → S.logs s.old ≡ Some d.logs → AllByRecursion (IsSite config.now d) chain.now.sites }
    ensures ran { (d : Disk) → S.pages s.old ≡ Some d.pages → S.logs s.old ≡ Some d.logs → IsChain config.now d chain.now → Ran (all_records config.now d) by (chain.now.page ∷ []) d.pages (S.stops s.old) (S.pages s.new) (S.stops s.new) result }
    ensures untold { S.pages s.old ≡ None → S.pages s.new ≡ None }
    ensures sizes { HasSizes config.now (S.pages s.new) (S.logs s.new) (S.rooms s.new) }
    ensures logs { S.logs s.new ≡ S.logs s.old }
    ensures rooms { S.rooms s.new ≡ S.rooms s.old }
    ensures calm { (l : List (Option ℕ)) → NoneFails (S.failing s.old) by l → NoneFails (S.failing s.new) by l }
    ensures quiet { (l : List (Option ℕ)) → NoneFails (S.failing s.old) by l → IfErr result (λ e. e ≡ Call.Write) }
    ensures faults { IfErr result IsRedoCall }
    ensures counts { (k : Kind) → S.faults s.old k ≤ S.faults s.new k }
    ensures cause { (k : Kind) → IfErr result (λ e. e ≡ k → Rose (S.faults s.old k) (S.faults s.new k)) }
{
    if chain.sites.is_empty() {
        return Ok(());
    }
    match stored_version(s, by, chain.page, raw) {
        Ok(version) => {
            if version < chain.version {
                return write_chain(s, config, by, chain, raw);
            }
            Ok(())
        }
        Err(RedoFault::Failed(call)) => Err(call),
        Err(RedoFault::BadPage { .. }) => Ok(()),
        Err(RedoFault::NoMemory) => Ok(()),
    }
}

/// Makes a page by its chain from the stored page, which `raw` has, and writes it.
fn write_chain<S: Storage>(
    s: &mut S,
    config: &Config,
    by: NodeNo,
    chain: &Chain,
    raw: &mut [u8],
) -> Result<(), Call>
    requires sizes { HasSizes config.now (S.pages s.old) (S.logs s.old) (S.rooms s.old) }
    requires by { by < config.now.nodes }
    requires page { chain.now.page < config.now.pages }
    requires length { length raw.old ≡ config.now.size + 16 }
    requires stand { (d : Disk) → S.logs s.old ≡ Some d.logs → AllByRecursion (IsSite config.now d) chain.now.sites }
    ensures wrote { (d : Disk) (to : List ℕ) → S.pages s.old ≡ Some d.pages → S.logs s.old ≡ Some d.logs → Leads config.now d chain.now.sites (drop 16 raw.old) to → Wrote by chain.now.page (stored_bytes chain.now.page (record { version = chain.now.version; bytes = to })) d.pages (S.stops s.old) (S.pages s.new) (S.stops s.new) result }
    ensures untold { S.pages s.old ≡ None → S.pages s.new ≡ None }
    ensures sizes { HasSizes config.now (S.pages s.new) (S.logs s.new) (S.rooms s.new) }
    ensures logs { S.logs s.new ≡ S.logs s.old }
    ensures rooms { S.rooms s.new ≡ S.rooms s.old }
    ensures calm { (l : List (Option ℕ)) → NoneFails (S.failing s.old) by l → NoneFails (S.failing s.new) by l }
    ensures quiet { (l : List (Option ℕ)) → NoneFails (S.failing s.old) by l → IfErr result (λ e. e ≡ Call.Write) }
    ensures faults { IfErr result IsRedoCall }
    ensures counts { (k : Kind) → S.faults s.old k ≤ S.faults s.new k }
    ensures cause { (k : Kind) → IfErr result (λ e. e ≡ k → Rose (S.faults s.old k) (S.faults s.new k)) }
{
    match put_sites(s, config, by, chain.sites.as_slice(), raw) {
        Err(Failed) => Err(Call::Log),
        Ok(()) => match write(s, by, chain.page, chain.version, raw) {
            Ok(()) => Ok(()),
            Err(Failed) => Err(Call::Write),
        },
    }
}

/// Puts entries over a page, one after the other.
fn put_sites<S: Storage>(
    s: &mut S,
    config: &Config,
    by: NodeNo,
    sites: &[Site],
    raw: &mut [u8],
) -> Result<(), Failed>
    requires sizes { HasSizes config.now (S.pages s.old) (S.logs s.old) (S.rooms s.old) }
    requires by { by < config.now.nodes }
    requires length { length raw.old ≡ config.now.size + 16 }
    requires stand { (d : Disk) → S.logs s.old ≡ Some d.logs → AllByRecursion (IsSite config.now d) sites.now }
    ensures put { OnOk result ((d : Disk) (to : List ℕ) → S.logs s.old ≡ Some d.logs → Leads config.now d sites.now (drop 16 raw.old) to → drop 16 raw.new ≡ to) }
    ensures pages { S.pages s.new ≡ S.pages s.old }
    ensures logs { S.logs s.new ≡ S.logs s.old }
    ensures rooms { S.rooms s.new ≡ S.rooms s.old }
    ensures stops { S.stops s.new ≡ S.stops s.old }
    ensures calm { (l : List (Option ℕ)) → NoneFails (S.failing s.old) by l → NoneFails (S.failing s.new) by l }
    ensures quiet { (l : List (Option ℕ)) → NoneFails (S.failing s.old) by l → IsOk result }
    ensures cause { HasCauses Call.Log (S.faults s.old) (S.faults s.new) result }
{
    for site in sites {
        apply_at(s, config, by, site.node, site.place, site.whole, raw)?;
    }
    Ok(())
}
