ghost use Rattle.std.specs.Prelude.{◌≡◌, ◌+◌, ◌*◌, ◌≤◌, ◌<◌, ℕ, [], true, false, None, Some, length, map, nat_eq, cond, IfOk, IfSome, IsSome, OnOk};
ghost use Rattle.std.specs.Map.{set_value};
ghost use Rattle.lru.specs.LruCache.{promoted};
ghost use Rattle.buffer_pool.specs.Kept.{name_of, named_here, freed_at};
ghost use Rattle.buffer_pool.specs.Entries.{IsTable, TakesFree, count, first_row, last_row, slot_here, private_here, is_free, goes_for, page_to_go, freed, is_bare, use_at, slot_page, private_owner, is_used, fresh};

use crate::order;
use crate::uses::{Name, PrivateUse, SlotUse, Use};
use indexmap::IndexMap;
use lru::LruCache;
use pcl_base::{NoMemory, PageNo, TxId};
use std::alloc::Global;
use std::marker::Model;

/// What each frame is used for, by last use. Contracts see the list of all frames, the one that was
/// used last first.
#[derive(Drop)]
pub(crate) struct Table {
    order: LruCache<u32, Use>,
    /// The frame of each name in use. What left may still be listed: there is room for twice as many
    /// names as there are frames, and once it is full the names in use are listed anew.
    names: IndexMap<Name, u32>,
    free: Vec<u32>,
    /// How many slots are unpinned.
    loose: u32,
    /// How many of these are places.
    bare: u32,
}

impl Model for Table {
    ghost use Rattle.std.specs.Prelude.{vec_capacity};
    ghost use Rattle.indexmap.specs.IndexMap.{spare};
    ghost use Rattle.buffer_pool.specs.Kept.{name_of, named_here, freed_at};
    ghost use Rattle.buffer_pool.specs.Entries.{Entries};
    ghost use Rattle.buffer_pool.specs.Kept.{IsKept};

    ghost Value = { Entries };

    ghost view = { λ t. t.order.entries };

    ghost invariant = { λ t. IsKept t.order.entries t.names.entries t.free.items (spare t.names) (vec_capacity t.free) t.loose t.bare };
}

impl Table {
    /// All frames are free.
    pub(crate) fn open(alloc: Global, frames: u32) -> Result<Table, NoMemory>
        requires { (1 ≤ frames) × (frames ≤ 4096) }
        ensures opened { IfOk result (λ t. t ≡ fresh frames) }
        ensures sound { IfOk result IsTable }
    {
        Ok(Table {
            order: order::all_free(alloc, frames)?,
            names: IndexMap::with_capacity(alloc, 2 * frames as usize)?,
            free: order::numbers(alloc, frames)?,
            loose: 0,
            bare: 0,
        })
    }

    /// The page's slot and its frame.
    pub(crate) fn slot(&self, page: PageNo) -> Option<(u32, SlotUse)>
        ensures found { result ≡ first_row (slot_here page) self.now }
        ensures sound { IsTable self.now }
    {
        let frame = *self.names.get(&Name::Slot(page))?;
        self.order.peek(&frame)?.slot_of(frame, page)
    }

    /// The transaction's private copy of the page and its frame.
    pub(crate) fn private(&self, tx: TxId, page: PageNo) -> Option<(u32, PrivateUse)>
        ensures found { result ≡ first_row (private_here tx page) self.now }
        ensures sound { IsTable self.now }
    {
        let frame = *self.names.get(&Name::private(tx, page))?;
        self.order.peek(&frame)?.private_of(frame, tx, page)
    }

    /// How many frames are free.
    pub(crate) fn free(&self) -> u32
        ensures value { result ≡ count is_free self.now }
        ensures sound { IsTable self.now }
    {
        self.free.len() as u32
    }

    /// How many slots of other pages are unpinned.
    pub(crate) fn can_go(&self, keep: PageNo) -> u32
        ensures { result ≡ count (goes_for keep) self.now }
    {
        match self.slot(keep) {
            None => self.loose,
            Some((_frame, slot)) => {
                if slot.pins == 0 {
                    return self.loose - 1;
                }
                self.loose
            }
        }
    }

    /// The page of the last unpinned slot but that of `keep`.
    pub(crate) fn victim(&self, keep: PageNo) -> Option<PageNo>
        ensures { result ≡ last_row (page_to_go keep) self.now }
    {
        order::last_to_go(&self.order, keep)
    }

    /// The slot of a page in a free frame, in front.
    pub(crate) fn add_slot(&mut self, page: PageNo)
        requires free { 0 < count is_free self.old }
        requires none { first_row (slot_here page) self.old ≡ None }
        ensures added { TakesFree self.old (Use.Slot (record { page = page; content = None; pins = 0 })) self.new }
        ensures sound { IsTable self.new }
    {
        self.bring(
            Name::Slot(page),
            Use::Slot(SlotUse {
                page,
                content: None,
                pins: 0,
            }),
        );
    }

    /// The private copy of a page for a transaction in a free frame.
    pub(crate) fn add_private(&mut self, tx: TxId, page: PageNo)
        requires free { 0 < count is_free self.old }
        requires none { first_row (private_here tx page) self.old ≡ None }
        ensures added { TakesFree self.old (Use.Private (record { tx = tx; page = page; filled = false })) self.new }
        ensures sound { IsTable self.new }
    {
        self.bring(
            Name::private(tx, page),
            Use::Private(PrivateUse {
                tx,
                page,
                filled: false,
            }),
        );
    }

    // A free frame comes into use, in front.
    fn bring(&mut self, name: Name, used: Use)
        requires free { 0 < count is_free self.old }
        requires name { name_of used ≡ Some name }
        requires used { is_free used ≡ false }
        requires none { first_row (named_here name) self.old ≡ None }
        ensures brought { TakesFree self.old used self.new }
        ensures sound { IsTable self.new }
    {
        match self.free.pop() {
            None => unreachable!(),
            Some(frame) => {
                order::list(&self.order, &mut self.names, name, frame);
                order::bring(&mut self.order, frame, used);
                self.loose = recount(self.loose, false, used.is_loose());
                self.bare = recount(self.bare, false, used.is_bare());
            }
        }
    }

    /// The frame moves to the front.
    pub(crate) fn touch(&mut self, frame: u32)
        ensures touched { self.new ≡ promoted (nat_eq frame) self.old }
        ensures sound { IsTable self.new }
    {
        let _there = self.order.promote(&frame);
    }

    /// Another state of the slot of the same page.
    pub(crate) fn set_slot(&mut self, frame: u32, slot: SlotUse)
        requires { slot_page (use_at self.old frame) ≡ Some slot.page }
        ensures set { self.new ≡ set_value (nat_eq frame) self.old (Use.Slot slot) }
        ensures sound { IsTable self.new }
    {
        self.set(frame, Use::Slot(slot));
    }

    /// Another state of the private copy of the same transaction and page.
    pub(crate) fn set_private(&mut self, frame: u32, private: PrivateUse)
        requires { private_owner (use_at self.old frame) ≡ Some (private.tx, private.page) }
        ensures set { self.new ≡ set_value (nat_eq frame) self.old (Use.Private private) }
        ensures sound { IsTable self.new }
    {
        self.set(frame, Use::Private(private));
    }

    // Another state of a used frame, of the same name.
    fn set(&mut self, frame: u32, used: Use)
        requires used { is_free used ≡ false }
        requires same { IfSome (use_at self.old frame) (λ u. name_of u ≡ name_of used) }
        requires there { IsSome (use_at self.old frame) }
        ensures set { self.new ≡ set_value (nat_eq frame) self.old used }
        ensures sound { IsTable self.new }
    {
        let old = order::replace(&mut self.order, frame, used);
        self.loose = recount(self.loose, old.is_loose(), used.is_loose());
        self.bare = recount(self.bare, old.is_bare(), used.is_bare());
    }

    /// A frame that is used becomes free.
    pub(crate) fn release(&mut self, frame: u32)
        requires { is_used (use_at self.old frame) ≡ true }
        ensures released { self.new ≡ set_value (nat_eq frame) self.old Use.Free }
        ensures sound { IsTable self.new }
    {
        let old = order::replace(&mut self.order, frame, Use::Free);
        self.loose = recount(self.loose, old.is_loose(), false);
        self.bare = recount(self.bare, old.is_bare(), false);
        self.free.push_reserved(frame);
    }

    /// How many places are unpinned.
    pub(crate) fn bare(&self) -> u32
        ensures { result ≡ count is_bare self.now }
    {
        self.bare
    }

    /// Each unpinned place is freed.
    pub(crate) fn free_places(&mut self)
        ensures freed { self.new ≡ map freed self.old }
        ensures sound { IsTable self.new }
    {
        for frame in 0..self.order.len() as u32 {
            self.free_place(frame);
        }
    }

    // A frame is freed where it is an unpinned place.
    fn free_place(&mut self, frame: u32)
        requires { frame < length self.old }
        ensures freed { self.new ≡ freed_at frame self.old }
        ensures sound { IsTable self.new }
    {
        match self.order.peek(&frame) {
            None => {}
            Some(used) => {
                if used.is_bare() {
                    self.release(frame);
                }
            }
        }
    }
}

// A count of frames, where one of them was counted before and is now, or not.
fn recount(count: u32, was: bool, is: bool) -> u32
    requires within { count ≤ 4096 }
    requires counted { cond was 1 0 ≤ count }
    ensures { result + cond was 1 0 ≡ count + cond is 1 0 }
{
    match (was, is) {
        (true, false) => count - 1,
        (false, true) => count + 1,
        _ => count,
    }
}
