ghost use Rattle.std.specs.Prelude.{◌≡◌, ◌<◌, ◌^◌, ◌+◌, ◌++◌, ◌∷◌, [], List, length, IfOk, IfSome, OnOk};
ghost use Rattle.pcl_base.specs.declared.trace.Entry.{Entry as entry};
ghost use Rattle.text_rules.specs.Totals.{totals_of, totals_text};

use msg_account::Tally;
use pcl_base::{Entry, NoMemory};
use std::alloc::Global;
use std::marker::Model;

/// The totals of a trace, counted entry by entry. Contracts see them alone.
#[derive(Debug, Drop)]
pub(crate) struct Counter {
    tally: Tally,
    /// No count is above it: the entries, each with its replies and messages.
    items: u64,
}

impl Model for Counter {
    ghost use Rattle.text_rules.specs.Totals.{Totals};
    ghost use Rattle.msg_account.specs.Counting.{counted};
    ghost use Rattle.replay.specs.ReaderView.{AreWithin};

    ghost Value = { Totals };

    ghost view = { λ c. counted c.tally };

    ghost invariant = { λ c. AreWithin (counted c.tally) c.items };
}

impl Counter {
    /// The totals of an empty trace.
    pub(crate) fn new() -> Counter
        ensures { result ≡ totals_of [] }
    {
        Counter {
            tally: Tally::new(),
            items: 0,
        }
    }

    /// Counts an entry. More items than a `u64` counts have no place in memory, so a count that would
    /// pass it is told as want of memory.
    pub(crate) fn add(&mut self, e: &Entry) -> Result<(), NoMemory>
        ensures { OnOk result ((es : List entry) → self.old ≡ totals_of es → self.new ≡ totals_of (es ++ e.now ∷ [])) }
    {
        match items_with(self.items, e) {
            Some(items) => {
                self.tally.add(e);
                self.items = items;
                Ok(())
            }
            None => Err(NoMemory),
        }
    }

    /// The number of entries.
    pub(crate) fn events(&self) -> u64
        ensures { result ≡ self.now.events }
    {
        self.tally.events
    }

    /// The number of commit points.
    pub(crate) fn commits(&self) -> u64
        ensures { result ≡ self.now.committed }
    {
        self.tally.committed
    }

    /// The text of the totals. `NoMemory` where there is none for it.
    pub(crate) fn print(&self, alloc: Global) -> Result<Vec<u8>, NoMemory>
        ensures { IfOk result (λ text. text.items ≡ totals_text self.now) }
    {
        self.tally.print(alloc)
    }
}

/// A number of items with those of an entry, where a `u64` counts them: its replies, its messages, its
/// halt and itself.
fn items_with(items: u64, e: &Entry) -> Option<u64>
    ensures value { IfSome result (λ n. n ≡ items + length e.now.replies + length e.now.sent + 2) }
    ensures bound { IfSome result (λ n. n < 2 ^ 64) }
{
    let items = items.checked_add(e.replies.len() as u64)?;
    let items = items.checked_add(e.sent.len() as u64)?;
    items.checked_add(2)
}
