ghost use Rattle.std.specs.Prelude.{◌≡◌, ◌≤◌, [], length, vec_capacity, IfOk};
ghost use Rattle.trace_entries.specs.Blanks.{IsReady};

use pcl_base::{Items, NoMemory, ReportLock, ReportRight, ReportWait, TxId};
use std::alloc::Global;

/// The lists that one message may have, empty and with room.
#[derive(Drop)]
pub(crate) struct Blank {
    pub readers: Vec<TxId>,
    pub waits: Vec<ReportWait>,
    pub locks: Vec<ReportLock>,
    pub rights: Vec<ReportRight>,
}

impl Blank {
    /// Empty lists with room for so many items each.
    pub(crate) fn open(alloc: Global, size: usize) -> Result<Blank, NoMemory>
        ensures { IfOk result (λ b. IsReady size b) }
    {
        Ok(Blank {
            readers: Vec::with_capacity(alloc, size)?,
            waits: Vec::with_capacity(alloc, size)?,
            locks: Vec::with_capacity(alloc, size)?,
            rights: Vec::with_capacity(alloc, size)?,
        })
    }
}

/// A list with these items, in the memory of an empty one. What isn't needed of that is let go.
pub(crate) fn filled<T: Copy>(list: Vec<T>, items: &[T]) -> Items<T>
    requires empty { list.items ≡ [] }
    requires room { length items.now ≤ vec_capacity list }
    ensures { result ≡ items.now }
{
    let mut list = list;
    list.extend_from_slice(items).unwrap();
    list.shrink_to_fit();
    Items::of(list)
}
