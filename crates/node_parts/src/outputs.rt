ghost use Rattle.std.specs.Prelude.{◌≡◌, ◌≤◌, ◌<◌, ◌+◌, ◌++◌, ◌∷◌, [], OnOk, OnErr};
ghost use Rattle.node_parts.specs.Outputs.{OutputsView, HasRoom};

use pcl_base::{Message, NoMemory, NodeNo, Reply};
use std::alloc::Global;
use std::marker::Model;

/// A message that a step sends.
#[derive(Debug, Drop, PartialEq)]
pub struct Outgoing {
    /// The receiver.
    pub to: NodeNo,
    /// The message.
    pub message: Message,
}

impl Model for Outgoing {
    ghost use Rattle.node_rules.specs.NodeState.{Outgoing as Sent};

    ghost Value = { Sent };

    ghost view = { λ o. record { to = o.to; message = o.message } };

    ghost inverse = { λ v. record { to = v.to; message = v.message } };
}

/// What steps answer and send. Contracts see both lists, and for how many more items of each there is
/// room.
#[derive(Debug, Drop)]
pub struct Outputs {
    replies: Vec<Reply>,
    sends: Vec<Outgoing>,
}

impl Model for Outputs {
    ghost use Rattle.std.specs.Prelude.{◌-◌, vec_len, vec_capacity};
    ghost use Rattle.node_parts.specs.Outputs.{OutputsView};

    ghost Value = { OutputsView };

    ghost view = { λ o. record { replies = o.replies.items; sends = o.sends.items; reply_room = vec_capacity o.replies - vec_len o.replies; send_room = vec_capacity o.sends - vec_len o.sends } };
}

impl Outputs {
    /// No replies and no sends. It takes no memory.
    pub fn open(alloc: Global) -> Outputs
        ensures replies { result.replies ≡ [] }
        ensures sends { result.sends ≡ [] }
    {
        Outputs {
            replies: Vec::new(alloc),
            sends: Vec::new(alloc),
        }
    }

    /// Makes room for so many more replies and sends. Without memory the lists are as they were, and
    /// no room is gone.
    pub fn reserve(&mut self, replies: usize, sends: usize) -> Result<(), NoMemory>
        ensures room { OnOk result (HasRoom self.new replies sends) }
        ensures kept { HasRoom self.new self.old.reply_room self.old.send_room }
        ensures replies { self.new.replies ≡ self.old.replies }
        ensures sends { self.new.sends ≡ self.old.sends }
    {
        self.replies.reserve(replies)?;
        self.sends.reserve(sends)?;
        Ok(())
    }

    /// A further reply, for which there is room. It takes no memory.
    pub fn reply(&mut self, reply: Reply)
        requires { 0 < self.old.reply_room }
        ensures replies { self.new.replies ≡ self.old.replies ++ reply ∷ [] }
        ensures sends { self.new.sends ≡ self.old.sends }
        ensures reply_room { self.old.reply_room ≤ self.new.reply_room + 1 }
        ensures send_room { self.new.send_room ≡ self.old.send_room }
    {
        match self.replies.push(reply) {
            Ok(()) => return,
            Err(_back) => unreachable!(),
        }
    }

    /// A reply before all others, for which there is room. It takes no memory.
    pub fn reply_first(&mut self, reply: Reply)
        requires { 0 < self.old.reply_room }
        ensures replies { self.new.replies ≡ reply ∷ self.old.replies }
        ensures sends { self.new.sends ≡ self.old.sends }
        ensures reply_room { self.old.reply_room ≤ self.new.reply_room + 1 }
        ensures send_room { self.new.send_room ≡ self.old.send_room }
    {
        match self.replies.insert(0, reply) {
            Ok(()) => return,
            Err(_back) => unreachable!(),
        }
    }

    /// A further message, for which there is room. It takes no memory.
    pub fn send(&mut self, to: NodeNo, message: Message)
        requires { 0 < self.old.send_room }
        ensures replies { self.new.replies ≡ self.old.replies }
        ensures sends { self.new.sends ≡ self.old.sends ++ record { to = to; message = message } ∷ [] }
        ensures reply_room { self.new.reply_room ≡ self.old.reply_room }
        ensures send_room { self.old.send_room ≤ self.new.send_room + 1 }
    {
        match self.sends.push(Outgoing { to, message }) {
            Ok(()) => return,
            Err(_back) => unreachable!(),
        }
    }

    /// The replies in order.
    pub fn replies(&self) -> &[Reply]
        ensures { result.now ≡ self.now.replies }
    {
        self.replies.as_slice()
    }

    /// The messages in the order in which they are sent.
    pub fn sends(&self) -> &[Outgoing]
        ensures { result.now ≡ self.now.sends }
    {
        self.sends.as_slice()
    }

    /// Forgets the replies and the sends. No room is gone, and it takes no memory.
    pub fn clear(&mut self)
        ensures replies { self.new.replies ≡ [] }
        ensures sends { self.new.sends ≡ [] }
        ensures room { HasRoom self.new self.old.reply_room self.old.send_room }
    {
        self.replies.clear();
        self.sends.clear();
    }

    /// The replies and the sends, without copying them.
    pub fn into_parts(self) -> (Vec<Reply>, Vec<Outgoing>)
        ensures replies { result.0.items ≡ self.replies }
        ensures sends { result.1.items ≡ self.sends }
    {
        let Outputs { replies, sends } = self;
        (replies, sends)
    }
}
