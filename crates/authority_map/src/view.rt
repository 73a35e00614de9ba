ghost use Rattle.std.specs.Prelude.{◌≡◌, ◌+◌, ◌-◌, ◌^◌, ◌==◌, ◌&&◌, not, Bool, true, ◌<◌, ◌≤◌, ℕ, Ok, None, length, map, IfOk, IfErr};
ghost use Rattle.std.specs.List.{list_all, zip};
ghost use Rattle.pcl_base.specs.Limits.{Sizes};
ghost use Rattle.run_rules.specs.Words.{pick};
ghost use Rattle.run_rules.specs.Views.{anew, born_after, born_of, count_from, first, first_broken, follows, is_live, keeps_four, keeps_two, moved, next, owner_of, reopen, same_numbers, since_after, since_of};
ghost use Rattle.node_rules.specs.Judging.{is_past, judge};
ghost use Rattle.authority_map.specs.Sound.{IsSound, is_among, of_nodes};
ghost use Rattle.authority_map.specs.Faults.{rule_of, reopen_broken};

use pcl_base::{Config, Items, NoMemory, NodeNo, Verdict};
use std::alloc::{AllocError, Global};
use std::marker::Model;
use thiserror::Error;

/// Why a view wasn't made.
#[derive(Clone, Copy, Debug, Error, PartialEq, Eq)]
pub enum ViewFault {
    /// This is the first rule of views that is broken: 1, each list has an item for each node; 2,
    /// some node is live; 4, each owner is live; 6, the epoch before isn't the last.
    #[error("BadView")]
    BadView { rule: u8 },
    /// Memory was wanted and there was none.
    #[error("NoMemory")]
    NoMemory,
}

impl From<AllocError> for ViewFault {
    ghost use Rattle.authority_map.specs.declared.view.ViewFault.TheVariants.{NoMemory as no_memory};

    ghost from_gives = { λ _ f. f ≡ no_memory };

    fn from(_fault: AllocError) -> ViewFault {
        ViewFault::NoMemory
    }
}

/// A view: its epoch, which nodes are live, the owner of each partition, the epoch since which it
/// owns it, and the epoch in which each node was born.
///
/// Contracts see the record `View` of the run rules; `IsSound` holds of every view.
#[derive(Debug, Drop)]
pub struct View {
    epoch: u32,
    live: Items<bool>,
    owners: Items<NodeNo>,
    since: Items<u32>,
    born: Items<u32>,
}

impl Model for View {
    ghost use Rattle.run_rules.specs.Views.{View as view_of};
    ghost use Rattle.authority_map.specs.Sound.{IsSound};

    ghost Value = { view_of };

    ghost view = { λ v. record { epoch = v.epoch; live = v.live; owners = v.owners; since = v.since; born = v.born } };

    ghost invariant = { λ v. IsSound (record { epoch = v.epoch; live = v.live; owners = v.owners; since = v.since; born = v.born }) };
}

impl View {
    /// View 1: all nodes are live, and node i owns partition i.
    pub fn first(alloc: Global, config: &Config) -> Result<View, NoMemory>
        ensures first { IfOk result (λ v. v ≡ first config.now) }
        ensures nodes { IfOk result (λ v. length v.live ≡ config.now.nodes) }
    {
        anew(alloc, config, 1)
    }

    /// The view of these fields. It needs an item of each list for each node, live owners, and every
    /// `since` and `born` from 1 to the epoch.
    pub fn of(
        alloc: Global,
        config: &Config,
        epoch: u32,
        live: &Vec<bool>,
        owners: &Vec<NodeNo>,
        since: &Vec<u32>,
        born: &Vec<u32>,
    ) -> Result<View, NoMemory>
        requires nodes { length live.now.items ≡ config.now.nodes }
        requires sound { IsSound (record { epoch = epoch; live = live.now.items; owners = owners.now.items; since = since.now.items; born = born.now.items }) }
        ensures { IfOk result (λ v. v ≡ record { epoch = epoch; live = live.now.items; owners = owners.now.items; since = since.now.items; born = born.now.items }) }
    {
        let _nodes = config.nodes();
        Ok(View {
            epoch,
            live: Items::of(Vec::from_slice(alloc, live.as_slice())?),
            owners: Items::of(Vec::from_slice(alloc, owners.as_slice())?),
            since: Items::of(Vec::from_slice(alloc, since.as_slice())?),
            born: Items::of(Vec::from_slice(alloc, born.as_slice())?),
        })
    }

    /// The view of the next epoch with these live nodes and owners, by the rule of views: an owner
    /// that stays keeps its `since`, and a node that comes back is born anew. `BadView` exactly
    /// where a rule is broken, with the number of the first; `NoMemory` only where none is.
    pub fn next(
        &self,
        alloc: Global,
        config: &Config,
        live: &Vec<bool>,
        owners: &Vec<NodeNo>,
    ) -> Result<View, ViewFault>
        requires { config.now.nodes ≡ length self.now.live }
        ensures made { IfOk result (λ v. next config.now self.now live.now.items owners.now.items ≡ Ok v) }
        ensures nodes { IfOk result (λ v. length v.live ≡ config.now.nodes) }
        ensures fault { IfErr result (λ f. rule_of f ≡ first_broken config.now self.now live.now.items owners.now.items) }
    {
        let live = live.as_slice();
        let owners = owners.as_slice();
        match self.broken(live, owners) {
            Some(rule) => Err(ViewFault::BadView { rule }),
            None => self.moved(alloc, config, live, owners),
        }
    }

    /// The view of the next epoch in which everything begins anew, made where all nodes are down.
    /// `BadView` exactly where the epoch is the last one, with the number 6.
    #[tactic(auto, unfolding(run_rules::specs::Views::reopen))]
    pub fn reopen(&self, alloc: Global, config: &Config) -> Result<View, ViewFault>
        requires { config.now.nodes ≡ length self.now.live }
        ensures made { IfOk result (λ v. reopen config.now self.now ≡ Ok v) }
        ensures nodes { IfOk result (λ v. length v.live ≡ config.now.nodes) }
        ensures fault { IfErr result (λ f. rule_of f ≡ reopen_broken self.now) }
    {
        if self.epoch == u32::MAX {
            return Err(ViewFault::BadView { rule: 6 });
        }
        match anew(alloc, config, self.epoch + 1) {
            Ok(view) => Ok(view),
            Err(_) => Err(ViewFault::NoMemory),
        }
    }

    /// An equal view in memory of its own.
    pub fn copy(&self) -> Result<View, NoMemory>
        ensures { IfOk result (λ v. v ≡ self.now) }
    {
        Ok(View {
            epoch: self.epoch,
            live: self.live.copy()?,
            owners: self.owners.copy()?,
            since: self.since.copy()?,
            born: self.born.copy()?,
        })
    }

    /// The epoch.
    pub fn epoch(&self) -> u32
        ensures value { result ≡ self.now.epoch }
        ensures sound { IsSound self.now }
    {
        self.epoch
    }

    /// Whether a node is live.
    pub fn live(&self, n: NodeNo) -> bool
        requires { n < length self.now.live }
        ensures { result ≡ is_live self.now.live n }
    {
        is_live(self.live.as_slice(), n)
    }

    /// The owner of a partition, a live node.
    pub fn owner(&self, q: NodeNo) -> NodeNo
        requires { q < length self.now.live }
        ensures value { result ≡ owner_of self.now q }
        ensures live { is_among self.now.live result ≡ true }
    {
        self.owners.as_slice()[q as usize]
    }

    /// The epoch since which the owner of a partition owns it, 1 to the view's.
    pub fn since(&self, q: NodeNo) -> u32
        requires { q < length self.now.live }
        ensures value { result ≡ since_of self.now q }
        ensures within { (1 ≤ result) × (result ≤ self.now.epoch) }
    {
        self.since.as_slice()[q as usize]
    }

    /// The epoch in which a node was born, 1 to the view's.
    pub fn born(&self, n: NodeNo) -> u32
        requires { n < length self.now.live }
        ensures value { result ≡ born_of self.now n }
        ensures within { (1 ≤ result) × (result ≤ self.now.epoch) }
    {
        self.born.as_slice()[n as usize]
    }

    /// Whether this view is the one that its live nodes and owners make after `before`.
    pub fn follows(&self, before: &View) -> bool
        ensures { (c : Sizes) → c.nodes ≡ length before.now.live → result ≡ follows c before.now self.now }
    {
        match before.broken(self.live.as_slice(), self.owners.as_slice()) {
            Some(_) => false,
            None => self.is_after(before),
        }
    }

    // Whether the epochs of this view are those that its live nodes and owners make after `before`.
    fn is_after(&self, before: &View) -> bool
        requires nodes { length self.now.live ≡ length before.now.live }
        requires epoch { before.now.epoch < 2 ^ 32 - 1 }
        ensures { result ≡ (before.now.epoch + 1 == self.now.epoch && same_numbers (since_after (before.now.epoch + 1) before.now.owners self.now.owners before.now.since) self.now.since && same_numbers (born_after (before.now.epoch + 1) before.now.live self.now.live before.now.born) self.now.born) }
    {
        let epoch = before.epoch + 1;
        if epoch != self.epoch {
            return false;
        }
        if !since_is(
            epoch,
            before.owners.as_slice(),
            self.owners.as_slice(),
            before.since.as_slice(),
            self.since.as_slice(),
        ) {
            return false;
        }
        born_is(
            epoch,
            before.live.as_slice(),
            self.live.as_slice(),
            before.born.as_slice(),
            self.born.as_slice(),
        )
    }

    /// What becomes of a message from node `from`, sent in epoch `epoch`, that speaks of
    /// `partition`, at its receiver `me` with this view, by the rule of judging.
    #[tactic(auto, unfolding(node_rules::specs::Judging::judge))]
    pub fn judge(&self, me: NodeNo, from: NodeNo, epoch: u32, partition: NodeNo) -> Verdict
        requires me { me < length self.now.live }
        requires from { from < length self.now.live }
        requires partition { partition < length self.now.live }
        ensures { result ≡ judge self.now me from epoch partition }
    {
        if self.epoch < epoch {
            return Verdict::Held;
        }
        if self.is_past(me, from, epoch, partition) {
            return Verdict::Dropped;
        }
        Verdict::Taken
    }

    // Whether a message is of an earlier life of its sender or receiver, or of an earlier owner.
    fn is_past(&self, me: NodeNo, from: NodeNo, epoch: u32, partition: NodeNo) -> bool
        requires me { me < length self.now.live }
        requires from { from < length self.now.live }
        requires partition { partition < length self.now.live }
        ensures { result ≡ is_past self.now me from epoch partition }
    {
        let early = epoch < self.born(from) || epoch < self.born(me);
        !self.live(from) || early || epoch < self.since(partition)
    }

    // The first rule that a view with these live nodes and owners would break after this one.
    fn broken(&self, live: &[bool], owners: &[NodeNo]) -> Option<u8>
        ensures { result ≡ first_broken (of_nodes (length self.now.live)) self.now live.now owners.now }
    {
        let nodes = self.live.len();
        if live.len() != nodes || owners.len() != nodes {
            return Some(1);
        }
        if !some_live(live) {
            return Some(2);
        }
        if !all_live(live, owners, nodes) {
            return Some(4);
        }
        if self.epoch == u32::MAX {
            return Some(6);
        }
        None
    }

    // The next view, where no rule is broken.
    fn moved(
        &self,
        alloc: Global,
        config: &Config,
        live: &[bool],
        owners: &[NodeNo],
    ) -> Result<View, ViewFault>
        requires nodes { config.now.nodes ≡ length self.now.live }
        requires kept { first_broken config.now self.now live.now owners.now ≡ None }
        ensures made { IfOk result (λ v. next config.now self.now live.now owners.now ≡ Ok v) }
        ensures nodes { IfOk result (λ v. length v.live ≡ config.now.nodes) }
        ensures fault { IfErr result (λ f. rule_of f ≡ first_broken config.now self.now live.now owners.now) }
    {
        let _nodes = config.nodes();
        let epoch = self.epoch + 1;
        Ok(View {
            epoch,
            live: Items::of(Vec::from_slice(alloc, live)?),
            owners: Items::of(Vec::from_slice(alloc, owners)?),
            since: Items::of(since_after(
                alloc,
                epoch,
                self.owners.as_slice(),
                owners,
                self.since.as_slice(),
            )?),
            born: Items::of(born_after(
                alloc,
                epoch,
                self.live.as_slice(),
                live,
                self.born.as_slice(),
            )?),
        })
    }
}

// Whether some node is live.
fn some_live(live: &[bool]) -> bool
    ensures { result ≡ keeps_two live.now }
{
    live.iter().any(|live| *live)
}

// Whether all owners are live nodes.
fn all_live(live: &[bool], owners: &[NodeNo], nodes: usize) -> bool
    ensures { result ≡ keeps_four (of_nodes nodes) live.now owners.now }
{
    owners
        .iter()
        .all(|owner| (*owner as usize) < nodes && is_live(live, *owner))
}

// Whether a node is one of the live ones; a node without a flag isn't.
fn is_live(live: &[bool], node: NodeNo) -> bool
    ensures { result ≡ is_live live.now node }
{
    match live.get(node as usize) {
        Some(flag) => *flag,
        None => false,
    }
}

// The epoch since which a partition is held: the new one where its owner changed.
fn one_since(epoch: u32, old: NodeNo, new: NodeNo, since: u32) -> u32
    ensures { result ≡ pick (old == new) since epoch }
{
    if old == new { since } else { epoch }
}

// The epoch of a node's birth: the new one where it comes back.
fn one_born(epoch: u32, old: bool, new: bool, born: u32) -> u32
    ensures { result ≡ pick (new && not old) epoch born }
{
    if new && !old { epoch } else { born }
}

// The epochs since which partitions are held after a change of owners.
fn since_after(
    alloc: Global,
    epoch: u32,
    old: &[NodeNo],
    new: &[NodeNo],
    since: &[u32],
) -> Result<Vec<u32>, AllocError>
    ensures { IfOk result (λ v. v.items ≡ since_after epoch old.now new.now since.now) }
{
    zipped_since(alloc, epoch, old, new, since)
}

// The same, list by list.
fn zipped_since(
    alloc: Global,
    epoch: u32,
    old: &[NodeNo],
    new: &[NodeNo],
    since: &[u32],
) -> Result<Vec<u32>, AllocError>
    ensures { IfOk result (λ v. v.items ≡ map (λ (x : (ℕ × ℕ) × ℕ). pick (x.0.0 == x.0.1) x.1 epoch) (zip (zip old.now new.now) since.now)) }
{
    old.iter()
        .zip(new)
        .zip(since)
        .map(|((old, new), since)| one_since(epoch, *old, *new, *since))
        .collect(alloc)
}

// The epochs of the nodes' births after a change of live nodes.
fn born_after(
    alloc: Global,
    epoch: u32,
    old: &[bool],
    new: &[bool],
    born: &[u32],
) -> Result<Vec<u32>, AllocError>
    ensures { IfOk result (λ v. v.items ≡ born_after epoch old.now new.now born.now) }
{
    zipped_born(alloc, epoch, old, new, born)
}

// The same, list by list.
fn zipped_born(
    alloc: Global,
    epoch: u32,
    old: &[bool],
    new: &[bool],
    born: &[u32],
) -> Result<Vec<u32>, AllocError>
    ensures { IfOk result (λ v. v.items ≡ map (λ (x : (Bool × Bool) × ℕ). pick (x.0.1 && not x.0.0) epoch x.1) (zip (zip old.now new.now) born.now)) }
{
    old.iter()
        .zip(new)
        .zip(born)
        .map(|((old, new), born)| one_born(epoch, *old, *new, *born))
        .collect(alloc)
}

// Whether these are the epochs since which partitions are held after a change of owners.
fn since_is(epoch: u32, old: &[NodeNo], new: &[NodeNo], since: &[u32], found: &[u32]) -> bool
    requires old { length old.now ≡ length found.now }
    requires new { length new.now ≡ length found.now }
    requires since { length since.now ≡ length found.now }
    ensures { result ≡ same_numbers (since_after epoch old.now new.now since.now) found.now }
{
    zipped_since_is(epoch, old, new, since, found)
}

// The same, list by list.
fn zipped_since_is(epoch: u32, old: &[NodeNo], new: &[NodeNo], since: &[u32], found: &[u32]) -> bool
    ensures { result ≡ list_all (λ (x : ((ℕ × ℕ) × ℕ) × ℕ). pick (x.0.0.0 == x.0.0.1) x.0.1 epoch == x.1) (zip (zip (zip old.now new.now) since.now) found.now) }
{
    old.iter().zip(new).zip(since).zip(found).all(|(((old, new), since), found)| one_since(
        epoch, *old, *new, *since,
    ) == *found)
}

// Whether these are the epochs of the nodes' births after a change of live nodes.
fn born_is(epoch: u32, old: &[bool], new: &[bool], born: &[u32], found: &[u32]) -> bool
    requires old { length old.now ≡ length found.now }
    requires new { length new.now ≡ length found.now }
    requires born { length born.now ≡ length found.now }
    ensures { result ≡ same_numbers (born_after epoch old.now new.now born.now) found.now }
{
    zipped_born_is(epoch, old, new, born, found)
}

// The same, list by list.
fn zipped_born_is(epoch: u32, old: &[bool], new: &[bool], born: &[u32], found: &[u32]) -> bool
    ensures { result ≡ list_all (λ (x : ((Bool × Bool) × ℕ) × ℕ). pick (x.0.0.1 && not x.0.0.0) epoch x.0.1 == x.1) (zip (zip (zip old.now new.now) born.now) found.now) }
{
    old.iter().zip(new).zip(born).zip(found).all(|(((old, new), born), found)| one_born(
        epoch, *old, *new, *born,
    ) == *found)
}

// The view of an epoch in which everything begins anew.
fn anew(alloc: Global, config: &Config, epoch: u32) -> Result<View, NoMemory>
    requires { 1 ≤ epoch }
    ensures anew { IfOk result (λ v. v ≡ anew config.now epoch) }
    ensures nodes { IfOk result (λ v. length v.live ≡ config.now.nodes) }
{
    let nodes = config.nodes() as usize;
    Ok(View {
        epoch,
        live: Items::of(vec![in alloc; true; nodes]?),
        owners: Items::of(numbers(alloc, config.nodes() as u8)?),
        since: Items::of(vec![in alloc; epoch; nodes]?),
        born: Items::of(vec![in alloc; epoch; nodes]?),
    })
}

// The numbers of the nodes.
fn numbers(alloc: Global, nodes: NodeNo) -> Result<Vec<NodeNo>, AllocError>
    ensures { IfOk result (λ v. v.items ≡ count_from 0 nodes) }
{
    (0..nodes).collect(alloc)
}
