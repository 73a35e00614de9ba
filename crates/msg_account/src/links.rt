ghost use Rattle.std.specs.Prelude.{◌≡◌, ◌++◌, ◌∷◌, [], ◌+◌, IfOk, OnOk, map, replicate, slice_index_or, slice_set, option_copied};
ghost use Rattle.run_rules.specs.Ledger.{head_of, tail_of, link_at, put_link};

use pcl_base::{NoMemory, NodeNo, Note};
use std::alloc::Global;
use std::collections::VecDeque;
use std::marker::Model;

/// The messages on one link, the first one in front.
#[derive(Debug, Drop)]
struct Link<'a> {
    notes: VecDeque<&'a Note>,
}

impl<'a> Model for Link<'a> {
    ghost use Rattle.std.specs.Prelude.{List, map};
    ghost use Rattle.pcl_base.specs.declared.trace.Note.{Note as note};

    ghost Value = { List note };

    ghost view = { λ l. map (λ n. n.now) l.notes.items };
}

impl<'a> Link<'a> {
    fn new(alloc: Global) -> Link<'a>
        ensures { result ≡ [] }
    {
        Link {
            notes: VecDeque::new(alloc),
        }
    }

    fn head(&self) -> Option<&'a Note>
        ensures { option_copied result ≡ head_of self.now }
    {
        match self.notes.front() {
            Some(note) => Some(*note),
            None => None,
        }
    }

    fn drop_head(&mut self)
        ensures { self.new ≡ tail_of self.old }
    {
        let _head = self.notes.pop_front();
    }

    fn push(&mut self, note: &'a Note) -> Result<(), NoMemory>
        ensures { OnOk result (self.new ≡ self.old ++ note.now ∷ []) }
    {
        Ok(self.notes.push_back(note)?)
    }

    fn empty(&mut self)
        ensures { self.new ≡ [] }
    {
        self.notes.clear();
    }
}

/// The links out of one node, by receiver.
#[derive(Debug, Drop)]
struct Row<'a> {
    links: Vec<Link<'a>>,
}

impl<'a> Model for Row<'a> {
    ghost use Rattle.std.specs.Prelude.{List};
    ghost use Rattle.pcl_base.specs.declared.trace.Note.{Note as note};

    ghost Value = { List (List note) };

    ghost view = { λ r. r.links.items };
}

impl<'a> Row<'a> {
    fn new(alloc: Global, nodes: u32) -> Result<Row<'a>, NoMemory>
        ensures { IfOk result (λ r. r ≡ replicate nodes []) }
    {
        let mut links = Vec::new(alloc);
        for _ in 0..nodes {
            links.push(Link::new(alloc))?;
        }
        Ok(Row { links })
    }

    fn head(&self, to: NodeNo) -> Option<&'a Note>
        ensures { option_copied result ≡ head_of (slice_index_or self.now to []) }
    {
        match self.links.get(to as usize) {
            Some(link) => link.head(),
            None => None,
        }
    }

    fn drop_head(&mut self, to: NodeNo)
        ensures { self.new ≡ slice_set self.old to (tail_of (slice_index_or self.old to [])) }
    {
        match self.links.get_mut(to as usize) {
            Some(link) => link.drop_head(),
            None => {}
        }
    }

    fn push(&mut self, to: NodeNo, note: &'a Note) -> Result<(), NoMemory>
        ensures { OnOk result (self.new ≡ slice_set self.old to (slice_index_or self.old to [] ++ note.now ∷ [])) }
    {
        match self.links.get_mut(to as usize) {
            Some(link) => link.push(note),
            None => Ok(()),
        }
    }

    fn empty(&mut self, to: NodeNo)
        ensures { self.new ≡ slice_set self.old to [] }
    {
        match self.links.get_mut(to as usize) {
            Some(link) => link.empty(),
            None => {}
        }
    }
}

/// The links between the nodes. A link of a node that isn't there has no message and takes none.
///
/// Contracts see the rows of links out of each node.
#[derive(Debug, Drop)]
pub(crate) struct Links<'a> {
    rows: Vec<Row<'a>>,
}

impl<'a> Model for Links<'a> {
    ghost use Rattle.std.specs.Prelude.{List};
    ghost use Rattle.pcl_base.specs.declared.trace.Note.{Note as note};

    ghost Value = { List (List (List note)) };

    ghost view = { λ l. l.rows.items };
}

impl<'a> Links<'a> {
    /// Empty links between so many nodes.
    pub(crate) fn new(alloc: Global, nodes: u32) -> Result<Links<'a>, NoMemory>
        ensures { IfOk result (λ l. l ≡ replicate nodes (replicate nodes [])) }
    {
        let mut rows = Vec::new(alloc);
        for _ in 0..nodes {
            rows.push(Row::new(alloc, nodes)?)?;
        }
        Ok(Links { rows })
    }

    /// The first message on a link.
    #[tactic(auto, unfolding(run_rules::specs::Ledger::link_at))]
    pub(crate) fn head(&self, from: NodeNo, to: NodeNo) -> Option<&'a Note>
        ensures { option_copied result ≡ head_of (link_at self.now from to) }
    {
        match self.rows.get(from as usize) {
            Some(row) => row.head(to),
            None => None,
        }
    }

    /// Takes the first message off a link, if there is one.
    #[tactic(auto, unfolding(run_rules::specs::Ledger::link_at, run_rules::specs::Ledger::put_link))]
    pub(crate) fn drop_head(&mut self, from: NodeNo, to: NodeNo)
        ensures { self.new ≡ put_link self.old from to (tail_of (link_at self.old from to)) }
    {
        match self.rows.get_mut(from as usize) {
            Some(row) => row.drop_head(to),
            None => {}
        }
    }

    /// Puts a message last on a link.
    #[tactic(auto, unfolding(run_rules::specs::Ledger::link_at, run_rules::specs::Ledger::put_link))]
    pub(crate) fn push(&mut self, from: NodeNo, to: NodeNo, note: &'a Note) -> Result<(), NoMemory>
        ensures { OnOk result (self.new ≡ put_link self.old from to (link_at self.old from to ++ note.now ∷ [])) }
    {
        match self.rows.get_mut(from as usize) {
            Some(row) => row.push(to, note),
            None => Ok(()),
        }
    }

    /// Empties all links into a node.
    pub(crate) fn empty_into(&mut self, to: NodeNo)
        ensures { self.new ≡ map (λ row. slice_set row to []) self.old }
    {
        empty_all(self.rows.as_mut_slice(), to);
    }
}

fn empty_all<'a>(rows: &mut [Row<'a>], to: NodeNo)
    ensures { rows.new ≡ map (λ row. slice_set row to []) rows.old }
{
    for row in rows.iter_mut() {
        row.empty(to);
    }
}
