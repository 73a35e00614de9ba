ghost use Rattle.std.specs.Prelude.{◌≡◌, ℕ, nat_eq, is_some, Option, None, true, false, OnOk, IfOk};
ghost use Rattle.std.specs.Map.{lookup};
ghost use Rattle.partition_redo.specs.Index.{same_pair, near_in, noted_in, noted_at, or_else};

use crate::near::Near;
use crate::site::Site;
use indexmap::IndexMap;
use pcl_base::{NoMemory, PageNo, Version};
use std::alloc::Global;
use std::marker::Model;

/// The first changed ranges of versions of pages. Of each page most stand in a list by version;
/// versions that are far from the others of their page stand in a map.
#[derive(Drop)]
pub(crate) struct Noted {
    alloc: Global,
    near: IndexMap<PageNo, Near>,
    far: IndexMap<(PageNo, Version), Site>,
}

impl Model for Noted {
    ghost use Rattle.partition_redo.specs.Index.{NotedView};

    ghost Value = { NotedView };

    ghost view = { λ n. record { near = n.near.entries; far = n.far.entries } };
}

impl Noted {
    /// No changed ranges. It takes no memory.
    pub(crate) fn new(alloc: Global) -> Noted
        ensures { (p v : ℕ) → noted_in result p v ≡ None }
    {
        Noted {
            alloc,
            near: IndexMap::new(alloc),
            far: IndexMap::new(alloc),
        }
    }

    /// Notes changed ranges of a page, unless others of that version were noted before. `from` is
    /// a version of the page below all those that will be noted.
    pub(crate) fn note(
        &mut self,
        page: PageNo,
        from: Version,
        version: Version,
        site: Site,
    ) -> Result<(), NoMemory>
        ensures { OnOk result ((p v : ℕ) → noted_in self.new p v ≡ or_else (noted_in self.old p v) (noted_at page version site p v)) }
    {
        if self.far_at(page, version).is_some() {
            return Ok(());
        }
        if self.keep(page, from, version, site)? {
            return Ok(());
        }
        self.far.insert((page, version), site)?;
        Ok(())
    }

    /// Keeps changed ranges in the list of their page. False where their version is far from it,
    /// with nothing kept.
    fn keep(
        &mut self,
        page: PageNo,
        from: Version,
        version: Version,
        site: Site,
    ) -> Result<bool, NoMemory>
        ensures far { OnOk result (self.new.far ≡ self.old.far) }
        ensures kept { IfOk result (λ is. is ≡ true → (p v : ℕ) → near_in (lookup (nat_eq p) self.new.near) v ≡ or_else (near_in (lookup (nat_eq p) self.old.near) v) (noted_at page version site p v)) }
        ensures none { IfOk result (λ is. is ≡ false → near_in (lookup (nat_eq page) self.old.near) version ≡ None) }
        ensures same { IfOk result (λ is. is ≡ false → (p v : ℕ) → near_in (lookup (nat_eq p) self.new.near) v ≡ near_in (lookup (nat_eq p) self.old.near) v) }
    {
        match self.near.get_mut(&page) {
            Some(near) => near.keep(version, site),
            None => {
                let mut near = Near::new(self.alloc, from);
                if near.keep(version, site)? {
                    self.near.insert(page, near)?;
                    return Ok(true);
                }
                Ok(false)
            }
        }
    }

    /// The changed ranges of a page and a version that stand in the map.
    fn far_at(&self, page: PageNo, version: Version) -> Option<Site>
        ensures { result ≡ lookup (same_pair (page, version)) self.now.far }
    {
        if self.far.is_empty() {
            return None;
        }
        self.far.get(&(page, version)).copied()
    }

    /// The changed ranges of a page and a version.
    pub(crate) fn at(&self, page: PageNo, version: Version) -> Option<Site>
        ensures { result ≡ noted_in self.now page version }
    {
        if let Some(site) = self.far_at(page, version) {
            return Some(site);
        }
        match self.near.get(&page) {
            Some(near) => near.at(version),
            None => None,
        }
    }
}
