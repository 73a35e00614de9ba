ghost use Rattle.std.specs.Prelude.{◌≡◌, ◌<◌, ◌≤◌, ◌+◌, ◌++◌, ◌∷◌, [], ℕ, length, slice_index, slice_index_or, slice_set, replicate, IsOk, IfOk, IsSome, OnOk, OnErr, option_copied};
ghost use Rattle.cluster_rules.specs.Links.{tail_of};
ghost use Rattle.node_rules.specs.Words.{head_of};
ghost use Rattle.link_model.specs.Spares.{LinkView, messages_of, spares_of, NotLowerFrom};

use crate::link::Link;
use pcl_base::{Message, NoMemory};
use std::alloc::{AllocError, Global};
use std::marker::Model;

/// The links from one node, a link for each receiver.
#[derive(Drop)]
pub struct Row {
    links: Vec<Link>,
}

impl Model for Row {
    ghost use Rattle.std.specs.Prelude.{List};
    ghost use Rattle.link_model.specs.Spares.{LinkView};

    ghost Value = { List LinkView };

    ghost view = { λ r. r.links.items };
}

impl Row {
    /// Empty links to `nodes` nodes.
    pub fn new(alloc: Global, nodes: u32) -> Result<Row, AllocError>
        ensures { IfOk result (λ r. messages_of r ≡ replicate nodes []) }
    {
        let mut links = Vec::new(alloc);
        for _ in 0..nodes {
            links.push(Link::new(alloc))?;
        }
        Ok(Row { links })
    }

    /// Puts a message last on the link to a node.
    pub fn send(&mut self, to: u8, m: Message) -> Result<(), NoMemory>
        requires { to < length self.old }
        ensures ok { OnOk result (messages_of self.new ≡ slice_set (messages_of self.old) to (slice_index_or (messages_of self.old) to [] ++ m ∷ [])) }
        ensures err { OnErr result (messages_of self.new ≡ messages_of self.old) }
        ensures succeeds { 0 < slice_index (spares_of self.old) to → IsOk result }
        ensures others { spares_of self.new ≡ slice_set (spares_of self.old) to (slice_index (spares_of self.new) to) }
        ensures one { slice_index (spares_of self.old) to ≤ slice_index (spares_of self.new) to + 1 }
    {
        let link = &mut self.links[to as usize];
        link.send(m)
    }

    /// The first message on the link to a node.
    pub fn head(&self, to: u8) -> Option<&Message>
        requires { to < length self.now }
        ensures { option_copied result ≡ head_of (slice_index_or (messages_of self.now) to []) }
    {
        self.links[to as usize].head()
    }

    /// Takes the first message on the link to a node.
    pub fn take(&mut self, to: u8) -> Option<Message>
        requires { to < length self.old }
        ensures head { result ≡ head_of (slice_index_or (messages_of self.old) to []) }
        ensures rest { messages_of self.new ≡ slice_set (messages_of self.old) to (tail_of (slice_index_or (messages_of self.old) to [])) }
        ensures others { spares_of self.new ≡ slice_set (spares_of self.old) to (slice_index (spares_of self.new) to) }
        ensures one { IsSome result → slice_index (spares_of self.old) to + 1 ≤ slice_index (spares_of self.new) to }
    {
        let link = &mut self.links[to as usize];
        link.take()
    }

    /// Puts a message before the others on the link to a node. It takes no memory.
    pub fn put_back(&mut self, to: u8, m: Message)
        requires inside { to < length self.old }
        requires room { 0 < slice_index (spares_of self.old) to }
        ensures messages { messages_of self.new ≡ slice_set (messages_of self.old) to (m ∷ slice_index_or (messages_of self.old) to []) }
        ensures others { spares_of self.new ≡ slice_set (spares_of self.old) to (slice_index (spares_of self.new) to) }
        ensures one { slice_index (spares_of self.old) to ≤ slice_index (spares_of self.new) to + 1 }
    {
        let link = &mut self.links[to as usize];
        link.put_back(m);
    }

    /// Drops the messages on the link to a node.
    pub fn clear(&mut self, to: u8)
        ensures messages { messages_of self.new ≡ slice_set (messages_of self.old) to [] }
        ensures spares { NotLowerFrom (spares_of self.old) (spares_of self.new) }
    {
        if self.links.len() <= to as usize {
            return;
        }
        let link = &mut self.links[to as usize];
        link.clear();
    }

    /// Makes room for `n` more messages on each link. Without memory no message is lost.
    pub fn reserve(&mut self, n: usize) -> Result<(), AllocError>
        ensures messages { messages_of self.new ≡ messages_of self.old }
        ensures ok { OnOk result ((k : ℕ) → k < length self.old → n ≤ slice_index (spares_of self.new) k) }
        ensures spares { NotLowerFrom (spares_of self.old) (spares_of self.new) }
    {
        reserve_all(self.links.as_mut_slice(), n)
    }
}

fn reserve_all(links: &mut [Link], n: usize) -> Result<(), AllocError>
    ensures messages { messages_of links.new ≡ messages_of links.old }
    ensures ok { OnOk result ((k : ℕ) → k < length links.old → n ≤ slice_index (spares_of links.new) k) }
    ensures spares { NotLowerFrom (spares_of links.old) (spares_of links.new) }
{
    for link in links.iter_mut() {
        link.reserve(n)?;
    }
    Ok(())
}
