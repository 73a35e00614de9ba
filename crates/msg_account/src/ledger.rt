ghost use Rattle.std.specs.Prelude.{◌≡◌, ◌∷◌, [], IfOk, replicate};
ghost use Rattle.run_rules.specs.Ledger.{first_ledger, view_at, is_up, actor};

use crate::links::Links;
use crate::pairs::Pairs;
use crate::rights::Rights;
use crate::seen::{Epochs, Seen};
use crate::views::Views;
use crate::wants::Wants;
use pcl_base::{Config, Event, NoMemory, NodeNo, Version};
use std::alloc::Global;
use std::marker::Model;

/// What the account knows before an entry (docs/rules.md has the rules that it speaks of).
///
/// Contracts see the ledger of the run rules.
#[derive(Debug, Drop)]
pub(crate) struct Ledger<'a> {
    pub(crate) views: Views,
    pub(crate) up: Vec<bool>,
    pub(crate) links: Links<'a>,
    pub(crate) seen: Vec<Seen>,
    pub(crate) installed: Vec<Epochs>,
    pub(crate) wanted: Vec<Wants>,
    pub(crate) rights: Vec<Rights>,
    pub(crate) writing: Pairs,
    pub(crate) asked: Wants,
    pub(crate) registered: Pairs,
    pub(crate) released: Pairs,
    pub(crate) done: Pairs,
    pub(crate) versions: Vec<Version>,
}

impl<'a> Model for Ledger<'a> {
    ghost use Rattle.run_rules.specs.Ledger.{Ledger as the_ledger};

    ghost Value = { the_ledger };

    ghost view = { λ l. record { config = l.views.config; up = l.up.items; links = l.links; views = l.views.views; seen = l.seen.items; installed = l.installed.items; wanted = l.wanted.items; rights = l.rights.items; writing = l.writing; asked = l.asked; registered = l.registered; released = l.released; done = l.done; versions = l.versions.items } };
}

impl<'a> Ledger<'a> {
    /// The ledger before the first entry.
    pub(crate) fn open(alloc: Global, config: &Config) -> Result<Ledger<'a>, NoMemory>
        ensures { IfOk result (λ l. l ≡ first_ledger config.now) }
    {
        let nodes = config.nodes();
        let views = Views::open(alloc, config)?;
        let seen = copies(alloc, views.first(), nodes)?;
        Ok(Ledger {
            views,
            up: vec![in alloc; true; nodes as usize]?,
            links: Links::new(alloc, nodes)?,
            seen,
            installed: first_epochs(alloc, nodes)?,
            wanted: no_wants(alloc, nodes)?,
            rights: no_rights(alloc, nodes)?,
            writing: Pairs::new(alloc),
            asked: Wants::new(alloc),
            registered: Pairs::new(alloc),
            released: Pairs::new(alloc),
            done: Pairs::new(alloc),
            versions: vec![in alloc; 0; config.pages() as usize]?,
        })
    }

    /// The view of a node; view 1 of a node that isn't there.
    pub(crate) fn view_at(&self, n: NodeNo) -> &Seen
        ensures { result.now ≡ view_at self.now n }
    {
        match self.seen.get(n as usize) {
            Some(view) => view,
            None => self.views.first(),
        }
    }

    /// Whether a node is up.
    pub(crate) fn is_up(&self, n: NodeNo) -> bool
        ensures { result ≡ is_up self.now n }
    {
        match self.up.get(n as usize) {
            Some(up) => *up,
            None => false,
        }
    }
}

/// The acting node of an event.
pub(crate) fn actor(event: &Event) -> Option<NodeNo>
    ensures { result ≡ actor event.now }
{
    match event {
        Event::Begin { node } => Some(*node),
        Event::Read { tx, .. } => Some(tx.node),
        Event::Write { tx, .. } => Some(tx.node),
        Event::Commit { tx } => Some(tx.node),
        Event::Abort { tx } => Some(tx.node),
        Event::Deliver { to, .. } => Some(*to),
        Event::Evict { node, .. } => Some(*node),
        Event::Flush { node, .. } => Some(*node),
        Event::Crash { node } => Some(*node),
        Event::View { .. } => None,
        Event::Install { node } => Some(*node),
        Event::Reopen => None,
        Event::Arm { node, .. } => Some(*node),
        Event::Cut { node } => Some(*node),
    }
}

fn copies(alloc: Global, view: &Seen, nodes: u32) -> Result<Vec<Seen>, NoMemory>
    ensures { IfOk result (λ v. v.items ≡ replicate nodes view.now) }
{
    let mut seen = Vec::new(alloc);
    for _ in 0..nodes {
        seen.push(view.copy()?)?;
    }
    Ok(seen)
}

fn first_epochs(alloc: Global, nodes: u32) -> Result<Vec<Epochs>, NoMemory>
    ensures { IfOk result (λ v. v.items ≡ replicate nodes (1 ∷ [])) }
{
    let mut installed = Vec::new(alloc);
    for _ in 0..nodes {
        installed.push(Epochs::first(alloc)?)?;
    }
    Ok(installed)
}

fn no_wants(alloc: Global, nodes: u32) -> Result<Vec<Wants>, NoMemory>
    ensures { IfOk result (λ v. v.items ≡ replicate nodes []) }
{
    let mut wanted = Vec::new(alloc);
    for _ in 0..nodes {
        wanted.push(Wants::new(alloc))?;
    }
    Ok(wanted)
}

fn no_rights(alloc: Global, nodes: u32) -> Result<Vec<Rights>, NoMemory>
    ensures { IfOk result (λ v. v.items ≡ replicate nodes []) }
{
    let mut rights = Vec::new(alloc);
    for _ in 0..nodes {
        rights.push(Rights::new(alloc))?;
    }
    Ok(rights)
}
