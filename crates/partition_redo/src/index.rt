ghost use Rattle.std.specs.Prelude.{◌≡◌, ℕ, ◌<◌, ◌^◌, ◌==◌, List, [], Option, Some, None, length, OnOk, IfOk, IfErr, cond};
ghost use Rattle.std.specs.Option.{option_copied};
ghost use Rattle.run_rules.specs.Disk.{Disk, log_at};
ghost use Rattle.page_store.specs.declared.fault.RedoFault.TheVariants.{NoMemory as no_memory};
ghost use Rattle.partition_redo.specs.declared.site.Base.{Base as Based};
ghost use Rattle.partition_redo.specs.Chains.{Follows, image_sites};
ghost use Rattle.partition_redo.specs.Index.{base_of, ranges_of, next_base, next_ranges, site_of};

use crate::ranges::Noted;
use crate::site::{Base, Chain, Site};
use indexmap::IndexMap;
use page_store::RedoFault;
use pcl_base::{Items, NoMemory, NodeNo, PageNo, Seen, Version};
use std::alloc::Global;
use std::marker::Model;

/// Of each listed page the newest whole page, and the first changed ranges of each version that
/// is newer.
#[derive(Drop)]
pub(crate) struct Index {
    bases: IndexMap<PageNo, Base>,
    noted: Noted,
}

impl Model for Index {
    ghost use Rattle.partition_redo.specs.declared.site.Base.{Base as Based};
    ghost use Rattle.partition_redo.specs.Chains.{Follows, image_sites};
    ghost use Rattle.partition_redo.specs.Index.{IndexView};

    ghost Value = { IndexView };

    ghost view = { λ i. record { bases = i.bases.entries; ranges = i.noted } };
}

impl Index {
    /// An index of no page. It takes no memory.
    pub(crate) fn new(alloc: Global) -> Index
        ensures bases { (p : ℕ) → base_of result p ≡ None }
        ensures ranges { (p v : ℕ) → ranges_of result p v ≡ None }
    {
        Index {
            bases: IndexMap::new(alloc),
            noted: Noted::new(alloc),
        }
    }

    /// Notes an answer of the walk over the log of a node, where it is newer than the newest whole
    /// page of a listed page.
    pub(crate) fn see(&mut self, node: NodeNo, seen: Seen) -> Result<(), RedoFault>
        ensures fault { IfErr result (λ e. e ≡ no_memory) }
        ensures bases { OnOk result ((p : ℕ) → base_of self.new p ≡ next_base p node seen (base_of self.old p)) }
        ensures ranges { OnOk result ((p v : ℕ) → ranges_of self.new p v ≡ next_ranges p v node seen (base_of self.old p) (ranges_of self.old p v)) }
        ensures place { seen.place < 2 ^ 64 }
        ensures version { seen.version < 2 ^ 64 }
    {
        let site = Site {
            node,
            place: seen.place,
            whole: seen.whole,
        };
        match self.bases.get_mut(&seen.page) {
            Some(base) if base.version < seen.version => {
                if seen.whole {
                    *base = Base {
                        version: seen.version,
                        image: Some(site),
                    };
                    return Ok(());
                }
                match self.noted.note(seen.page, base.version, seen.version, site) {
                    Ok(()) => Ok(()),
                    Err(NoMemory) => Err(RedoFault::NoMemory),
                }
            }
            _ => Ok(()),
        }
    }

    /// Lists a page with the version of its stored page.
    pub(crate) fn list(&mut self, page: PageNo, version: Version) -> Result<(), RedoFault>
        ensures fault { IfErr result (λ e. e ≡ no_memory) }
        ensures bases { OnOk result ((p : ℕ) → base_of self.new p ≡ cond (page == p) (Some (record { version = version; image = None })) (base_of self.old p)) }
        ensures ranges { self.new.ranges ≡ self.old.ranges }
    {
        let base = Base {
            version,
            image: None,
        };
        match self.bases.insert(page, base) {
            Ok(_) => Ok(()),
            Err(_) => Err(RedoFault::NoMemory),
        }
    }

    /// The chain of a listed page.
    pub(crate) fn chain(&self, alloc: Global, page: PageNo) -> Result<Chain, NoMemory>
        ensures page { IfOk result (λ x. x.page ≡ page) }
        ensures small { IfOk result (λ x. x.page < 2 ^ 32) }
        ensures fits { IfOk result (λ x. x.version < 2 ^ 64) }
        ensures none { IfOk result (λ x. base_of self.now page ≡ None → x.sites ≡ []) }
        ensures follows { IfOk result (λ x. (b : Based) → base_of self.now page ≡ Some b → Follows self.now page b.version (image_sites b.image) x) }
    {
        match self.bases.get(&page) {
            Some(base) => self.chain_from(page, base.version, sites_of(alloc, base.image)?),
            None => Ok(Chain {
                page,
                version: 0,
                sites: Items::new(alloc),
            }),
        }
    }

    /// The chain of a page from a version on, behind some sites.
    fn chain_from(&self, page: PageNo, from: Version, sites: Items<Site>) -> Result<Chain, NoMemory>
        ensures follows { IfOk result (λ x. Follows self.now page from sites x) }
        ensures page { IfOk result (λ x. x.page ≡ page) }
        ensures small { IfOk result (λ x. x.page < 2 ^ 32) }
        ensures fits { IfOk result (λ x. x.version < 2 ^ 64) }
    {
        let mut sites = sites;
        for version in from..u64::MAX {
            match self.noted.at(page, version + 1) {
                Some(site) => sites.push(site)?,
                None => {
                    return Ok(Chain {
                        page,
                        version,
                        sites,
                    });
                }
            }
        }
        Ok(Chain {
            page,
            version: u64::MAX,
            sites,
        })
    }
}

/// The site of a whole page, where it stands in a log.
fn sites_of(alloc: Global, image: Option<Site>) -> Result<Items<Site>, NoMemory>
    ensures { IfOk result (λ ss. ss ≡ image_sites image) }
{
    let mut sites = Items::new(alloc);
    if let Some(site) = image {
        sites.push(site)?;
        return Ok(sites);
    }
    Ok(sites)
}
