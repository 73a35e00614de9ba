ghost use Rattle.std.specs.Prelude.{◌≡◌, ◌<◌, ◌≤◌, ◌+◌, ◌++◌, ◌∷◌, [], ℕ, Some, None, IsOk, IsSome, OnOk, OnErr, option_copied};
ghost use Rattle.cluster_rules.specs.Links.{tail_of};
ghost use Rattle.node_rules.specs.Words.{head_of};

use pcl_base::{Message, NoMemory};
use std::alloc::{AllocError, Global};
use std::collections::VecDeque;
use std::marker::Model;

/// The messages on one link.
#[derive(Drop)]
pub struct Link {
    messages: VecDeque<Message>,
}

impl Model for Link {
    ghost use Rattle.std.specs.Prelude.{◌-◌};
    ghost use Rattle.std.specs.VecDeque.{deque_len, deque_capacity};
    ghost use Rattle.link_model.specs.Spares.{LinkView};

    ghost Value = { LinkView };

    ghost view = { λ q. record { messages = q.messages.items; spare = deque_capacity q.messages - deque_len q.messages } };
}

impl Link {
    /// An empty link. It takes no memory.
    pub fn new(alloc: Global) -> Link
        ensures { result.messages ≡ [] }
    {
        Link {
            messages: VecDeque::new(alloc),
        }
    }

    /// Puts a message last.
    pub fn send(&mut self, m: Message) -> Result<(), NoMemory>
        ensures ok { OnOk result (self.new.messages ≡ self.old.messages ++ m ∷ []) }
        ensures err { OnErr result (self.new.messages ≡ self.old.messages) }
        ensures succeeds { 0 < self.old.spare → IsOk result }
        ensures spare { self.old.spare ≤ self.new.spare + 1 }
    {
        self.messages.push_back(m)?;
        Ok(())
    }

    /// The message that comes first.
    pub fn head(&self) -> Option<&Message>
        ensures { option_copied result ≡ head_of self.now.messages }
    {
        self.messages.front()
    }

    /// Takes the message that comes first.
    pub fn take(&mut self) -> Option<Message>
        ensures head { result ≡ head_of self.old.messages }
        ensures rest { self.new.messages ≡ tail_of self.old.messages }
        ensures spare { IsSome result → self.old.spare + 1 ≤ self.new.spare }
    {
        self.messages.pop_front()
    }

    /// Puts a message before the others. It takes no memory.
    pub fn put_back(&mut self, m: Message)
        requires { 0 < self.old.spare }
        ensures messages { self.new.messages ≡ m ∷ self.old.messages }
        ensures spare { self.old.spare ≤ self.new.spare + 1 }
    {
        match self.messages.push_front(m) {
            Ok(()) => {}
            Err(_) => unreachable!(),
        }
    }

    /// Drops all messages.
    pub fn clear(&mut self)
        ensures messages { self.new.messages ≡ [] }
        ensures spare { self.old.spare ≤ self.new.spare }
    {
        self.messages.clear();
    }

    /// Makes room for `n` more messages.
    pub fn reserve(&mut self, n: usize) -> Result<(), AllocError>
        ensures messages { self.new.messages ≡ self.old.messages }
        ensures ok { OnOk result (n ≤ self.new.spare) }
        ensures spare { self.old.spare ≤ self.new.spare }
    {
        self.messages.reserve(n)
    }
}
