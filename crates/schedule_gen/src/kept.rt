ghost use Rattle.std.specs.Prelude.{◌≡◌, ◌<◌, ◌≤◌, ◌%◌, ◌==◌, ◌∷◌, [], not, filter, length, map, slice_index, IfOk, OnOk, OnErr};
ghost use Rattle.std.specs.List.{AllByRecursion, list_any};
ghost use Rattle.pcl_base.specs.Limits.{InLimits};
ghost use Rattle.text_rules.specs.ScheduleLine.{HasLine, HasTx};
ghost use Rattle.text_rules.specs.Generator.{Making, drawn as drawn_spec, draw_live as draw_live_spec, begin as begin_spec, access as access_spec, failure as failure_spec, numbers_below as numbers_spec, flags_of as flags_spec, first_making, new_owners};
ghost use Rattle.schedule_gen.specs.Owners.{AreRenewed};
ghost use Rattle.pcl_base.specs.declared.event.Event.TheVariants.{View, Write};

use pcl_base::{Config, Event, Items, NoMemory, NodeNo, PageNo, TxId};
use std::alloc::Global;
use std::marker::Model;

/// What the generator keeps from one event to the next.
#[derive(Drop)]
pub(crate) struct Kept {
    alloc: Global,
    /// The state of the draws.
    draws: u32,
    /// The live nodes, rising.
    live: Vec<NodeNo>,
    /// The owner of each partition.
    owners: Vec<NodeNo>,
    /// The last serial of each node.
    serials: Vec<u32>,
}

impl Model for Kept {
    ghost use Rattle.text_rules.specs.Generator.{Making};
    ghost use Rattle.schedule_gen.specs.Limits.{IsWithin};

    ghost Value = { Making };

    ghost view = { λ k. record { draws = k.draws; live = k.live.items; owners = k.owners.items; serials = k.serials.items } };

    ghost invariant = { λ k. IsWithin (record { draws = k.draws; live = k.live.items; owners = k.owners.items; serials = k.serials.items }) };
}

impl Kept {
    /// What is kept before the first event.
    pub(crate) fn open(alloc: Global, config: &Config, seed: u32) -> Result<Kept, NoMemory>
        ensures kept { IfOk result (λ k. k ≡ first_making config.now seed) }
        ensures limits { InLimits config.now }
    {
        let nodes = config.nodes() as u8;
        Ok(Kept {
            alloc,
            draws: seed,
            live: numbers_below(alloc, nodes)?,
            owners: numbers_below(alloc, nodes)?,
            serials: no_serials(alloc, nodes)?,
        })
    }

    /// The live nodes, rising.
    pub(crate) fn live(&self) -> &[NodeNo]
        ensures value { result.now ≡ self.now.live }
        ensures some { 1 ≤ length self.now.live }
        ensures nodes { AllByRecursion (λ n. n ≤ 15) self.now.live }
    {
        self.live.as_slice()
    }

    /// A draw below `count`.
    fn draw(&mut self, count: usize) -> usize
        requires { 0 < count }
        ensures value { result ≡ drawn_spec self.old.draws % count }
        ensures next { self.new ≡ record self.old { draws = drawn_spec self.old.draws } }
    {
        self.draws = drawn(self.draws);
        self.draws as usize % count
    }

    /// A live node by a draw.
    pub(crate) fn draw_live(&mut self) -> NodeNo
        ensures value { result ≡ (draw_live_spec self.old).value }
        ensures next { self.new ≡ (draw_live_spec self.old).next }
        ensures node { result < length self.new.serials }
        ensures most { result ≤ 15 }
    {
        let count = self.live.len();
        let place = self.draw(count);
        self.live[place]
    }

    /// A transaction at a node, under the node's next serial.
    pub(crate) fn begin(&mut self, node: NodeNo) -> TxId
        requires node { node < length self.old.serials }
        requires serial { slice_index self.old.serials node < 4_294_967_295 }
        ensures value { result ≡ (begin_spec node self.old).value }
        ensures next { self.new ≡ (begin_spec node self.old).next }
        ensures has_name { HasTx result }
    {
        let serial = self.serials[node as usize] + 1;
        self.serials[node as usize] = serial;
        TxId {
            node,
            born: 1,
            serial,
        }
    }

    /// An access of a transaction to one of so many pages. Without memory for the byte of a write
    /// all stays as it was.
    pub(crate) fn access(&mut self, pages: u32, tx: TxId) -> Result<Event, NoMemory>
        requires some { 1 ≤ pages }
        requires most { pages ≤ 65_536 }
        ensures kept { self.new ≡ record self.old { draws = self.new.draws } }
        ensures event { IfOk result (λ e. (access_spec pages tx self.old).events ≡ e ∷ []) }
        ensures next { OnOk result (self.new ≡ (access_spec pages tx self.old).next) }
        ensures err { OnErr result (self.new ≡ self.old) }
        ensures has_line { HasTx tx → IfOk result HasLine }
    {
        let first = drawn(self.draws);
        let second = drawn(first);
        if second % 3 == 0 {
            return self.write(second, tx, first % pages);
        }
        self.draws = second;
        Ok(Event::Read {
            tx,
            page: first % pages,
        })
    }

    /// A write of a byte by a draw from a state.
    fn write(&mut self, state: u32, tx: TxId, page: PageNo) -> Result<Event, NoMemory>
        requires { page ≤ 65_535 }
        ensures event { IfOk result (λ e. e ≡ Write tx page 0 (drawn_spec state % 256 ∷ [])) }
        ensures next { OnOk result (self.new ≡ record self.old { draws = drawn_spec state }) }
        ensures err { OnErr result (self.new ≡ self.old) }
        ensures has_line { HasTx tx → IfOk result HasLine }
    {
        let draws = drawn(state);
        let bytes = vec![in self.alloc; (draws % 256) as u8]?;
        self.draws = draws;
        Ok(Event::Write {
            tx,
            page,
            place: 0,
            bytes: Items::of(bytes),
        })
    }

    /// Loses a live node by a draw, and gives it. Another one by a draw owns each of its partitions.
    pub(crate) fn lose(&mut self) -> NodeNo
        requires { 2 ≤ length self.old.live }
        ensures value { result ≡ (draw_live_spec self.old).value }
        ensures next { self.new ≡ (failure_spec (length self.old.serials) self.old).next }
        ensures live { self.new.live ≡ filter (λ x. not (x == result)) self.old.live }
        ensures serials { self.new.serials ≡ self.old.serials }
        ensures most { result ≤ 15 }
    {
        let lost = self.draw_live();
        self.drop_node(lost);
        lost
    }

    /// Takes a node out of the live ones, and gives its partitions to others.
    fn drop_node(&mut self, lost: NodeNo)
        requires left { 2 ≤ length self.old.live }
        ensures live { self.new.live ≡ filter (λ x. not (x == lost)) self.old.live }
        ensures serials { self.new.serials ≡ self.old.serials }
        ensures renewed { AreRenewed lost self.old.draws self.new.draws self.new.live self.old.owners self.new.owners }
    {
        take_out(&mut self.live, lost);
        renew_owners(
            &mut self.draws,
            self.live.as_slice(),
            self.owners.as_mut_slice(),
            lost,
        );
    }

    /// The event of the view of the live nodes and the owners.
    pub(crate) fn view(&self) -> Result<Event, NoMemory>
        ensures value { IfOk result (λ e. e ≡ View (flags_spec (length self.now.serials) self.now.live) self.now.owners) }
        ensures some { 1 ≤ length self.now.live }
        ensures has_line { OnOk result (HasLine (View (flags_spec (length self.now.serials) self.now.live) self.now.owners)) }
    {
        let nodes = self.serials.len() as u8;
        Ok(Event::View {
            live: Items::of(flags_of(self.alloc, nodes, self.live.as_slice())?),
            owners: Items::of(Vec::from_slice(self.alloc, self.owners.as_slice())?),
        })
    }
}

/// The state of the draws after a draw.
fn drawn(state: u32) -> u32
    ensures value { result ≡ drawn_spec state }
{
    ((75 * state as u64 + 74) % 65_537) as u32
}

/// Takes a node out of some.
fn take_out(nodes: &mut Vec<NodeNo>, lost: NodeNo)
    ensures { nodes.new.items ≡ filter (λ x. not (x == lost)) nodes.old.items }
{
    nodes.retain(|node| *node != lost);
}

/// Gives each partition of a lost node to a live node by a draw.
fn renew_owners(draws: &mut u32, live: &[NodeNo], owners: &mut [NodeNo], lost: NodeNo)
    requires { 1 ≤ length live.now }
    ensures renewed { AreRenewed lost draws.old draws.new live.now owners.old owners.new }
    ensures as_many { length owners.new ≡ length owners.old }
{
    for place in 0..owners.len() {
        if owners[place] == lost {
            *draws = drawn(*draws);
            owners[place] = live[*draws as usize % live.len()];
        }
    }
}

/// 0, 1, .., `count - 1`.
fn numbers_below(alloc: Global, count: u8) -> Result<Vec<NodeNo>, NoMemory>
    ensures { IfOk result (λ v. v.items ≡ numbers_spec count) }
{
    let mut numbers = Vec::with_capacity(alloc, count as usize)?;
    for number in 0..count {
        numbers.push(number)?;
    }
    Ok(numbers)
}

/// No serial for each of so many nodes.
fn no_serials(alloc: Global, count: u8) -> Result<Vec<u32>, NoMemory>
    ensures { IfOk result (λ v. v.items ≡ map (λ n. 0) (numbers_spec count)) }
{
    let mut serials = Vec::with_capacity(alloc, count as usize)?;
    for _ in 0..count {
        serials.push(0)?;
    }
    Ok(serials)
}

/// A flag for each node: whether it is live.
fn flags_of(alloc: Global, nodes: u8, live: &[NodeNo]) -> Result<Vec<bool>, NoMemory>
    ensures { IfOk result (λ v. v.items ≡ flags_spec nodes live.now) }
{
    let mut flags = Vec::with_capacity(alloc, nodes as usize)?;
    for node in 0..nodes {
        flags.push(is_live(live, node))?;
    }
    Ok(flags)
}

/// Whether the node is one of the live ones.
fn is_live(live: &[NodeNo], node: NodeNo) -> bool
    ensures { result ≡ list_any (λ x. x == node) live.now }
{
    live.iter().any(|n| *n == node)
}
