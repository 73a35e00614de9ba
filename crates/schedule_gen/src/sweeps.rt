ghost use Rattle.std.specs.Prelude.{◌≡◌, ◌≤◌, ◌==◌, ◌++◌, ◌∷◌, [], List, ℕ, IfOk, OnOk, IfSome, not, filter};
ghost use Rattle.std.specs.List.{AllByRecursion};
ghost use Rattle.schedule_gen.specs.Links.{links_from, links_of, repeated, first_of, rest_of, avoids, IsLink};

use pcl_base::{NoMemory, NodeNo};
use std::alloc::Global;
use std::marker::Model;

/// The links of sweeps. A sweep has a delivery on each link between two live nodes.
#[derive(Drop)]
pub(crate) struct Sweeps {
    /// The links of a sweep, each with its sender first.
    links: Vec<(NodeNo, NodeNo)>,
    /// How many sweeps are due.
    count: u8,
    /// How many deliveries of the first of them were made.
    made: usize,
}

impl Model for Sweeps {
    ghost use Rattle.std.specs.Prelude.{◌≡◌, ◌<◌, ◌⊎◌, length, drop};
    ghost use Rattle.std.specs.List.{AllByRecursion};
    ghost use Rattle.schedule_gen.specs.Links.{SweepsView, repeated, IsLink};

    ghost Value = { SweepsView };

    ghost view = { λ s. record { sweep = s.links.items; due = drop s.made (repeated s.count s.links.items) } };

    ghost invariant = { λ s. ((s.made ≡ 0) ⊎ (s.made < length s.links.items)) × AllByRecursion IsLink s.links.items };
}

impl Sweeps {
    /// The sweeps of some live nodes, of which none is due.
    pub(crate) fn open(alloc: Global, live: &[NodeNo]) -> Result<Sweeps, NoMemory>
        requires { AllByRecursion (λ n. n ≤ 15) live.now }
        ensures { IfOk result (λ s. s ≡ record { sweep = links_of live.now; due = [] }) }
    {
        Ok(Sweeps {
            links: links_between(alloc, live)?,
            count: 0,
            made: 0,
        })
    }

    /// Lets so many sweeps be due, and no delivery else.
    pub(crate) fn start(&mut self, count: u8)
        ensures { self.new ≡ record self.old { due = repeated count self.old.sweep } }
    {
        self.count = count;
        self.made = 0;
    }

    /// The link of the next delivery that is due.
    pub(crate) fn next(&mut self) -> Option<(NodeNo, NodeNo)>
        ensures first { result ≡ first_of self.old.due }
        ensures rest { self.new ≡ record self.old { due = rest_of self.old.due } }
        ensures link { IfSome result IsLink }
    {
        if self.count == 0 {
            return None;
        }
        if self.links.is_empty() {
            return None;
        }
        let link = self.links[self.made];
        if self.made + 1 < self.links.len() {
            self.made += 1;
            return Some(link);
        }
        self.count -= 1;
        self.made = 0;
        Some(link)
    }

    /// Takes the links of a lost node away. No delivery is due.
    pub(crate) fn lose(&mut self, lost: NodeNo)
        ensures { self.new ≡ record { sweep = filter (avoids lost) self.old.sweep; due = [] } }
    {
        take_out(&mut self.links, lost);
        self.count = 0;
        self.made = 0;
    }
}

/// Takes the links of a node out of some.
fn take_out(links: &mut Vec<(NodeNo, NodeNo)>, lost: NodeNo)
    ensures { links.new.items ≡ filter (avoids lost) links.old.items }
{
    links.retain(|link| link.0 != lost && link.1 != lost);
}

/// The links between live nodes.
fn links_between(alloc: Global, live: &[NodeNo]) -> Result<Vec<(NodeNo, NodeNo)>, NoMemory>
    ensures { IfOk result (λ v. v.items ≡ links_of live.now) }
{
    let mut links = Vec::new(alloc);
    for from in live {
        put_links(&mut links, *from, live)?;
    }
    Ok(links)
}

/// Puts the links from a node to each other live one last.
fn put_links(
    links: &mut Vec<(NodeNo, NodeNo)>,
    from: NodeNo,
    live: &[NodeNo],
) -> Result<(), NoMemory>
    ensures { OnOk result (links.new.items ≡ links.old.items ++ links_from from live.now) }
{
    for to in live {
        if *to != from {
            links.push((from, *to))?;
        }
    }
    Ok(())
}
