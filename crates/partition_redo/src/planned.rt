ghost use Rattle.std.specs.Prelude.{◌≡◌, ◌≢◌, ℕ, ◌<◌, ◌≤◌, ◌+◌, List, Option, Some, None, map, length, OnOk, IfErr};
ghost use Rattle.std.specs.List.{AllByRecursion};
ghost use Rattle.pcl_base.specs.Faults.{Rose};
ghost use Rattle.pcl_base.specs.declared.trace.Call.{Call as Kind};
ghost use Rattle.disk_model.specs.Disk.{HasSizes};
ghost use Rattle.run_rules.specs.Disk.{Disk, raw_page};
ghost use Rattle.run_rules.specs.Redo.{all_records, redo as redo_of};
ghost use Rattle.redo_log.specs.Told.{NoneFails};
ghost use Rattle.partition_redo.specs.Chains.{AllStand, IsChain, IsRedoCall, written_pages};
ghost use Rattle.partition_redo.specs.Writes.{Ran, redo_pages, with_pages, IsStored, AreEither};

use crate::apply::apply_chains;
use crate::site::Chain;
use disk_model::{Call, Storage};
use pcl_base::{Config, Items, NodeNo, PageNo, Version};
use std::marker::Model;

/// What a redo will write, with all the memory for it.
#[derive(Drop)]
pub struct Planned {
    pub(crate) config: Config,
    pub(crate) by: NodeNo,
    pub(crate) versions: Vec<(PageNo, Version)>,
    pub(crate) writes: Vec<PageNo>,
    pub(crate) chains: Items<Chain>,
    /// A stored page.
    pub(crate) raw: Vec<u8>,
}

impl Model for Planned {
    ghost use Rattle.std.specs.Prelude.{◌≡◌, ◌+◌, ◌<◌, length};
    ghost use Rattle.std.specs.List.{AllByRecursion};
    ghost use Rattle.partition_redo.specs.Chains.{PlannedView, written_pages};

    ghost Value = { PlannedView };

    ghost view = { λ p. record { config = p.config; by = p.by; versions = p.versions.items; chains = p.chains } };

    ghost invariant = { λ p. (length p.raw.items ≡ p.config.size + 16) × (p.by < p.config.nodes) × AllByRecursion (λ x. x.page < p.config.pages) p.chains × (p.writes.items ≡ written_pages p.chains) };
}

impl Planned {
    /// What the redo answers: each listed page with its version, in the order given.
    pub fn versions(&self) -> &[(PageNo, Version)]
        ensures { result.now ≡ self.now.versions }
    {
        self.versions.as_slice()
    }

    /// The pages that `apply` writes, in the order given: those that the logs have newer than what is
    /// stored.
    pub fn writes(&self) -> &[PageNo]
        ensures { result.now ≡ written_pages self.now.chains }
    {
        self.writes.as_slice()
    }

    /// The same as `versions`, where the plan is of no more use.
    pub(crate) fn into_versions(self) -> Vec<(PageNo, Version)>
        ensures { result.items ≡ self.versions }
    {
        let Planned { versions, .. } = self;
        versions
    }

    /// Makes the writes of the redo, in the order in which the pages were given. It takes no memory.
    /// The listed pages and the whole records of the logs are as they were when this was prepared;
    /// of pages or logs that the storage doesn't tell, nothing is said.
    ///
    /// A failed call comes only where the storage's count of that kind of call rose. Each page is
    /// then the old one or the one that the redo gives, and redo of each page is as before.
    pub fn apply<S: Storage>(&mut self, s: &mut S) -> Result<(), Call>
        requires sizes { HasSizes self.old.config (S.pages s.old) (S.logs s.old) (S.rooms s.old) }
        requires stand { (d : Disk) → S.logs s.old ≡ Some d.logs → AllStand self.old.config d self.old.chains }
        requires chains { (d : Disk) → S.pages s.old ≡ Some d.pages → S.logs s.old ≡ Some d.logs → AllByRecursion (IsChain self.old.config d) self.old.chains }
        ensures ran { (d : Disk) → S.pages s.old ≡ Some d.pages → S.logs s.old ≡ Some d.logs → Ran (all_records self.old.config d) self.old.by (map (λ x. x.page) self.old.chains) d.pages (S.stops s.old) (S.pages s.new) (S.stops s.new) result }
        ensures done { OnOk result ((d : Disk) → S.pages s.old ≡ Some d.pages → S.logs s.old ≡ Some d.logs → S.pages s.new ≡ Some (redo_pages (all_records self.old.config d) d.pages (map (λ x. x.page) self.old.chains))) }
        ensures redone { OnOk result ((d : Disk) (l : List (List ℕ)) → S.pages s.old ≡ Some d.pages → S.logs s.old ≡ Some d.logs → S.pages s.new ≡ Some l → AllByRecursion (IsStored self.old.config d l) (map (λ x. x.page) self.old.chains)) }
        ensures told { (d : Disk) → S.pages s.old ≡ Some d.pages → S.logs s.old ≡ Some d.logs → (l : List (List ℕ)) × (S.pages s.new ≡ Some l) }
        ensures untold { S.pages s.old ≡ None → S.pages s.new ≡ None }
        ensures either { (d : Disk) (l : List (List ℕ)) → S.pages s.old ≡ Some d.pages → S.logs s.old ≡ Some d.logs → S.pages s.new ≡ Some l → AreEither l d.pages (redo_pages (all_records self.old.config d) d.pages (map (λ x. x.page) self.old.chains)) }
        ensures others { (d : Disk) (l : List (List ℕ)) (p : ℕ) → S.pages s.old ≡ Some d.pages → S.logs s.old ≡ Some d.logs → S.pages s.new ≡ Some l → AllByRecursion (λ q. q ≢ p) (map (λ x. x.page) self.old.chains) → raw_page l p ≡ raw_page d.pages p }
        ensures redo { (d : Disk) (l : List (List ℕ)) (p : ℕ) → S.pages s.old ≡ Some d.pages → S.logs s.old ≡ Some d.logs → S.pages s.new ≡ Some l → redo_of self.old.config (with_pages d l) p ≡ redo_of self.old.config d p }
        ensures plan { self.new ≡ self.old }
        ensures sizes { HasSizes self.old.config (S.pages s.new) (S.logs s.new) (S.rooms s.new) }
        ensures logs { S.logs s.new ≡ S.logs s.old }
        ensures rooms { S.rooms s.new ≡ S.rooms s.old }
        ensures calm { (l : List (Option ℕ)) → NoneFails (S.failing s.old) self.old.by l → NoneFails (S.failing s.new) self.old.by l }
        ensures quiet { (l : List (Option ℕ)) → NoneFails (S.failing s.old) self.old.by l → IfErr result (λ e. e ≡ Call.Write) }
        ensures faults { IfErr result IsRedoCall }
        ensures counts { (k : Kind) → S.faults s.old k ≤ S.faults s.new k }
        ensures cause { (k : Kind) → IfErr result (λ e. e ≡ k → Rose (S.faults s.old k) (S.faults s.new k)) }
    {
        apply_chains(
            s,
            &self.config,
            self.by,
            self.chains.as_slice(),
            self.raw.as_mut_slice(),
        )
    }
}
