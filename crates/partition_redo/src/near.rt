ghost use Rattle.std.specs.Prelude.{◌≡◌, ℕ, ◌==◌, ◌<◌, ◌≤◌, Option, Some, None, length, slice_index_or, true, false, OnOk, IfOk};
ghost use Rattle.run_rules.specs.Words.{pick};
ghost use Rattle.partition_redo.specs.Index.{near_at, or_else};

use crate::site::Site;
use pcl_base::{NoMemory, Version};
use std::alloc::Global;
use std::marker::Model;

/// The most places in the list for each version that is kept.
const PLACES: u64 = 4;

/// The versions for which there are places however few are kept.
const FEW: u64 = 16;

/// Changed ranges of versions of a page that lie close to one another, in a list with a place for
/// each version behind `from`. A place costs less than an entry of a map, and is found without a
/// search.
#[derive(Drop)]
pub(crate) struct Near {
    from: Version,
    kept: u64,
    slots: Vec<Option<Site>>,
}

impl Model for Near {
    ghost use Rattle.partition_redo.specs.Index.{NearView};

    ghost Value = { NearView };

    ghost view = { λ n. record { from = n.from; slots = n.slots.items } };
}

impl Near {
    /// No changed ranges, with places for versions behind `from`. It takes no memory.
    pub(crate) fn new(alloc: Global, from: Version) -> Near
        ensures { (v : ℕ) → near_at result v ≡ None }
    {
        Near {
            from,
            kept: 0,
            slots: Vec::new(alloc),
        }
    }

    /// The changed ranges that are kept of a version.
    pub(crate) fn at(&self, version: Version) -> Option<Site>
        ensures { result ≡ near_at self.now version }
    {
        if version <= self.from {
            return None;
        }
        let place = version - self.from - 1;
        if place >= self.slots.len() as u64 {
            return None;
        }
        self.slots[place as usize]
    }

    /// Keeps changed ranges of a version, unless others of that version were kept before. False
    /// where that would take too many places, with nothing kept.
    pub(crate) fn keep(&mut self, version: Version, site: Site) -> Result<bool, NoMemory>
        ensures kept { IfOk result (λ is. is ≡ true → (v : ℕ) → near_at self.new v ≡ or_else (near_at self.old v) (pick (version == v) (Some site) None)) }
        ensures none { IfOk result (λ is. is ≡ false → near_at self.old version ≡ None) }
        ensures same { IfOk result (λ is. is ≡ false → self.new ≡ self.old) }
    {
        if version <= self.from {
            return Ok(false);
        }
        let place = version - self.from - 1;
        if place < self.slots.len() as u64 {
            self.put(place as usize, site);
            return Ok(true);
        }
        if place / PLACES > self.kept.saturating_add(FEW) {
            return Ok(false);
        }
        self.append(place as usize, site)?;
        Ok(true)
    }

    /// Keeps changed ranges at a place of the list that has none.
    fn put(&mut self, place: usize, site: Site)
        requires { place < length self.old.slots }
        ensures from { self.new.from ≡ self.old.from }
        ensures slots { (k : ℕ) → slice_index_or self.new.slots k None ≡ or_else (slice_index_or self.old.slots k None) (pick (place == k) (Some site) None) }
    {
        match self.slots[place] {
            Some(_) => {}
            None => {
                self.slots[place] = Some(site);
                self.kept = self.kept.saturating_add(1);
            }
        }
    }

    /// Keeps changed ranges at a place behind the list, which grows up to there.
    fn append(&mut self, place: usize, site: Site) -> Result<(), NoMemory>
        requires { length self.old.slots ≤ place }
        ensures from { OnOk result (self.new.from ≡ self.old.from) }
        ensures slots { OnOk result ((k : ℕ) → slice_index_or self.new.slots k None ≡ or_else (slice_index_or self.old.slots k None) (pick (place == k) (Some site) None)) }
    {
        self.slots.resize(place, None)?;
        self.slots.push(Some(site))?;
        self.kept = self.kept.saturating_add(1);
        Ok(())
    }
}
