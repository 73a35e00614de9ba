ghost use Rattle.std.specs.Prelude.{◌≡◌, ℕ, ◌<◌, ◌^◌, length, map, slice_index, nat_eq, Some, IfOk, IfErr, OnOk};
ghost use Rattle.std.specs.Map.{lookup};
ghost use Rattle.page_store.specs.declared.fault.RedoFault.TheVariants.{NoMemory as no_memory};
ghost use Rattle.partition_redo.specs.Newest.{seen_version};

use indexmap::IndexMap;
use page_store::RedoFault;
use pcl_base::{PageNo, Seen, Version};
use std::alloc::Global;
use std::marker::Model;

/// The greatest version so far of each listed page.
#[derive(Drop)]
pub(crate) struct Greatest {
    versions: IndexMap<PageNo, Version>,
}

impl Model for Greatest {
    ghost use Rattle.std.specs.Prelude.{List, ℕ};

    ghost Value = { List (ℕ × ℕ) };

    ghost view = { λ g. g.versions.entries };
}

impl Greatest {
    /// Version 0 of each of these pages.
    pub(crate) fn open(alloc: Global, pages: &[PageNo]) -> Result<Greatest, RedoFault>
        ensures fault { IfErr result (λ e. e ≡ no_memory) }
        ensures zero { IfOk result (λ g. (k : ℕ) → k < length pages.now → lookup (nat_eq (slice_index pages.now k)) g ≡ Some 0) }
    {
        let mut versions = IndexMap::new(alloc);
        for page in pages {
            versions.insert(*page, 0).map_err(|_| RedoFault::NoMemory)?;
        }
        Ok(Greatest { versions })
    }

    /// Notes a version of a page, where that is listed.
    pub(crate) fn see(&mut self, seen: Seen)
        ensures noted { (p : ℕ) → lookup (nat_eq p) self.new ≡ seen_version p seen (lookup (nat_eq p) self.old) }
        ensures place { seen.place < 2 ^ 64 }
    {
        if let Some(version) = self.versions.get_mut(&seen.page) {
            if *version < seen.version {
                *version = seen.version;
            }
        }
    }

    /// The greatest version of a page that is listed.
    pub(crate) fn version(&self, page: PageNo) -> Version
        ensures { (v : ℕ) → lookup (nat_eq page) self.now ≡ Some v → result ≡ v }
    {
        match self.versions.get(&page) {
            Some(version) => *version,
            None => 0,
        }
    }

    /// The greatest version of each of the listed pages, in their order.
    pub(crate) fn versions(
        &self,
        alloc: Global,
        pages: &[PageNo],
    ) -> Result<Vec<Version>, RedoFault>
        ensures fault { IfErr result (λ e. e ≡ no_memory) }
        ensures len { IfOk result (λ vs. length vs.items ≡ length pages.now) }
        ensures all { IfOk result (λ vs. (f : ℕ → ℕ) → ((k : ℕ) → k < length pages.now → lookup (nat_eq (slice_index pages.now k)) self.now ≡ Some (f (slice_index pages.now k))) → vs.items ≡ map f pages.now) }
    {
        let mut versions = Vec::new(alloc);
        for page in pages {
            versions
                .push(self.version(*page))
                .map_err(|_| RedoFault::NoMemory)?;
        }
        Ok(versions)
    }
}
