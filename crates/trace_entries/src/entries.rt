ghost use Rattle.std.specs.Prelude.{◌≡◌, ◌∷◌, [], None, Some, IfOk};

use pcl_base::{Call, Entry, Event, Halt, Items, NoMemory, Reply, TxId};
use std::alloc::Global;

/// An entry with one reply.
pub fn one_reply(alloc: Global, event: Event, reply: Reply) -> Result<Entry, NoMemory>
    ensures { IfOk result (λ e. e ≡ record { event = event; replies = reply ∷ []; sent = []; halted = None }) }
{
    let mut replies = Vec::with_capacity(alloc, 1)?;
    replies.push(reply)?;
    Ok(Entry {
        event,
        replies: Items::of(replies),
        sent: Items::new(alloc),
        halted: None,
    })
}

/// The entry of a step that a failed call has ended. It takes no memory.
pub fn halted(alloc: Global, event: Event, call: Call, kept: Option<TxId>) -> Entry
    ensures { result ≡ record { event = event; replies = []; sent = []; halted = Some (record { call = call; kept = kept }) } }
{
    Entry {
        event,
        replies: Items::new(alloc),
        sent: Items::new(alloc),
        halted: Some(Halt { call, kept }),
    }
}
