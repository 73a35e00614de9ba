ghost use Rattle.std.specs.Prelude.{◌≡◌, ◌<◌, ◌≤◌, ◌+◌, ◌++◌, ◌∷◌, [], ℕ, length, map, IsOk, IsErr, IfOk, IsSome, Some, OnOk, OnErr, option_copied, ◌↔◌};
ghost use Rattle.cluster_rules.specs.Links.{empty_links, row_at, link_at, put_link, head_at, take_head, clear_into};
ghost use Rattle.link_model.specs.Spares.{messages_of, spares_of, spare_at, UsesOne, FreesOne, NotLower};

use crate::row::Row;
use pcl_base::{Config, Message, NoMemory, NodeNo};
use std::alloc::Global;
use std::marker::Model;

/// A link has no message.
#[derive(Clone, Copy, Debug, PartialEq, Eq)]
pub struct EmptyLink;

/// The links of a cluster, one for each ordered pair of nodes. Contracts see the messages of each,
/// and for how many more there is surely room, its spare.
#[derive(Drop)]
pub struct Links {
    rows: Vec<Row>,
}

impl Model for Links {
    ghost use Rattle.std.specs.Prelude.{map};
    ghost use Rattle.link_model.specs.Spares.{LinksView, messages_of, spares_of};

    ghost Value = { LinksView };

    ghost view = { λ l. record { links = map messages_of l.rows.items; spares = map spares_of l.rows.items } };
}

impl Links {
    /// Empty links between the nodes of a configuration.
    pub fn open(alloc: Global, config: &Config) -> Result<Links, NoMemory>
        ensures { IfOk result (λ l. l.links ≡ empty_links config.now.nodes) }
    {
        let mut rows = Vec::new(alloc);
        let nodes = config.nodes();
        for _ in 0..nodes {
            rows.push(Row::new(alloc, nodes)?)?;
        }
        Ok(Links { rows })
    }

    /// Puts a message last on the link between two nodes. Without memory all stays as it was.
    pub fn send(&mut self, from: NodeNo, to: NodeNo, m: Message) -> Result<(), NoMemory>
        requires sender { from < length self.old.links }
        requires receiver { to < length (row_at self.old.links from) }
        ensures ok { OnOk result (self.new.links ≡ put_link self.old.links from to (link_at self.old.links from to ++ m ∷ [])) }
        ensures err { OnErr result (self.new.links ≡ self.old.links) }
        ensures succeeds { 0 < spare_at self.old.spares from to → IsOk result }
        ensures spares { UsesOne self.old.spares self.new.spares from to }
    {
        let row = &mut self.rows[from as usize];
        row.send(to, m)
    }

    /// The first message on the link between two nodes.
    pub fn head(&self, from: NodeNo, to: NodeNo) -> Option<&Message>
        requires sender { from < length self.now.links }
        requires receiver { to < length (row_at self.now.links from) }
        ensures { option_copied result ≡ head_at self.now.links from to }
    {
        self.rows[from as usize].head(to)
    }

    /// Takes the first message on the link between two nodes; `EmptyLink` exactly where there is
    /// none, and then all stays as it was.
    pub fn take(&mut self, from: NodeNo, to: NodeNo) -> Result<Message, EmptyLink>
        requires sender { from < length self.old.links }
        requires receiver { to < length (row_at self.old.links from) }
        ensures ok { IfOk result (λ m. head_at self.old.links from to ≡ Some m) }
        ensures empty { IsErr result ↔ (link_at self.old.links from to ≡ []) }
        ensures links { self.new.links ≡ take_head self.old.links from to }
        ensures spares { OnOk result (FreesOne self.old.spares self.new.spares from to) }
    {
        let row = &mut self.rows[from as usize];
        match row.take(to) {
            Some(m) => Ok(m),
            None => Err(EmptyLink),
        }
    }

    /// Puts a message before the others on the link between two nodes. It takes no memory.
    pub fn put_back(&mut self, from: NodeNo, to: NodeNo, m: Message)
        requires sender { from < length self.old.links }
        requires receiver { to < length (row_at self.old.links from) }
        requires room { 0 < spare_at self.old.spares from to }
        ensures links { self.new.links ≡ put_link self.old.links from to (m ∷ link_at self.old.links from to) }
        ensures spares { UsesOne self.old.spares self.new.spares from to }
    {
        let row = &mut self.rows[from as usize];
        row.put_back(to, m);
    }

    /// Makes room for `n` more messages on each link from a node. Without memory no message is
    /// lost.
    pub fn reserve(&mut self, from: NodeNo, n: usize) -> Result<(), NoMemory>
        requires { from < length self.old.links }
        ensures links { self.new.links ≡ self.old.links }
        ensures ok { OnOk result ((b : ℕ) → b < length (row_at self.old.links from) → n ≤ spare_at self.new.spares from b) }
        ensures spares { NotLower self.old.spares self.new.spares }
    {
        let row = &mut self.rows[from as usize];
        row.reserve(n)?;
        Ok(())
    }

    /// Drops the messages on all links into a node.
    pub fn clear(&mut self, to: NodeNo)
        ensures links { self.new.links ≡ clear_into self.old.links to }
        ensures spares { NotLower self.old.spares self.new.spares }
    {
        clear_all(self.rows.as_mut_slice(), to);
    }
}

fn clear_all(rows: &mut [Row], to: NodeNo)
    ensures links { map messages_of rows.new ≡ clear_into (map messages_of rows.old) to }
    ensures spares { NotLower (map spares_of rows.old) (map spares_of rows.new) }
{
    for row in rows.iter_mut() {
        row.clear(to);
    }
}
