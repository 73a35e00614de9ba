ghost use Rattle.std.specs.Prelude.{◌≡◌, ◌+◌, ◌≤◌, ◌<◌, true, false, length, is_some, IfOk, IfSome};
ghost use Rattle.node_rules.specs.BufferRule.{open_pool, find, has_slot, pinned, dirty, copy_at, slot_at, has_private, free_frames, evict, place, private, pin, unpin, touch, clean, install, fill, change, publish, discard};
ghost use Rattle.buffer_pool.specs.Buffer.{IsBuffer};

use crate::images::Images;
use crate::table::Table;
use crate::uses::{Content, PrivateUse, SlotUse, Use};
use pcl_base::{NoMemory, PageNo, TxId, Version};
use std::alloc::Global;
use std::marker::Model;

/// A node's frames: slots of pages by last use, the latest first, and private copies of pages, each
/// for one transaction. Contracts see them as the pool of the buffer rule.
///
/// It can't be dropped: `close` gives the frames back.
pub struct BufferPool {
    pub(crate) images: Images,
    pub(crate) table: Table,
}

impl Model for BufferPool {
    ghost use Rattle.node_rules.specs.BufferRule.{Pool};
    ghost use Rattle.buffer_pool.specs.Seen.{pool_of, IsSound};

    ghost Value = { Pool };

    ghost view = { λ b. pool_of b.images b.table };

    ghost invariant = { λ b. IsSound b.images b.table };
}

impl BufferPool {
    /// A buffer of `frames` free frames of `size` bytes each; each number is 1 to 4,096. All memory
    /// that the buffer ever needs is taken here, and `NoMemory` comes only where it is wanting.
    pub fn open(alloc: Global, frames: u32, size: u32) -> Result<BufferPool, NoMemory>
        requires frames { (1 ≤ frames) × (frames ≤ 4096) }
        requires size { (1 ≤ size) × (size ≤ 4096) }
        ensures opened { IfOk result (λ b. b ≡ open_pool frames size) }
        ensures sound { IfOk result IsBuffer }
    {
        let table = Table::open(alloc, frames)?;
        let images = Images::open(alloc, frames, size)?;
        Ok(BufferPool { images, table })
    }

    /// The page's slot leaves, and its frame is free. It needs an unpinned copy that isn't dirty; a
    /// dirty one has to be written and made clean before. Answers true. Takes no memory.
    pub fn evict(&mut self, page: PageNo) -> bool
        requires copy { is_some (copy_at self.old page) ≡ true }
        requires unpinned { pinned self.old page ≡ false }
        requires clean { dirty self.old page ≡ false }
        ensures answer { result ≡ true }
        ensures evicted { self.new ≡ evict self.old page }
        ensures sound { IsBuffer self.new }
    {
        match self.table.slot(page) {
            None => unreachable!(),
            Some((frame, _slot)) => {
                self.table.release(frame);
                true
            }
        }
    }

    /// A place for the page takes a free frame and stands in front. It needs a free frame, and that
    /// the page has no slot. Takes no memory.
    pub fn place(&mut self, page: PageNo)
        requires free { 0 < free_frames self.old }
        requires none { has_slot self.old page ≡ false }
        ensures placed { self.new ≡ place self.old page }
        ensures sound { IsBuffer self.new }
    {
        self.table.add_slot(page);
    }

    /// A private copy of the page, without content yet, takes a free frame. It needs a free frame,
    /// and that the transaction has no private copy of the page. Takes no memory.
    pub fn private(&mut self, tx: TxId, page: PageNo)
        requires free { 0 < free_frames self.old }
        requires none { has_private self.old tx page ≡ false }
        ensures made { self.new ≡ private self.old tx page }
        ensures sound { IsBuffer self.new }
    {
        self.table.add_private(tx, page);
    }

    /// One more transaction holds the page or waits for it. It needs a slot with fewer than
    /// 4,294,967,295 pins. Takes no memory.
    pub fn pin(&mut self, page: PageNo)
        requires slot { has_slot self.old page ≡ true }
        requires few { IfSome (slot_at self.old page) (λ s. s.pins < 4_294_967_295) }
        ensures pinned { self.new ≡ pin self.old page }
        ensures sound { IsBuffer self.new }
    {
        match self.table.slot(page) {
            None => unreachable!(),
            Some((frame, slot)) => self.table.set_slot(
                frame,
                SlotUse {
                    pins: slot.pins + 1,
                    ..slot
                },
            ),
        }
    }

    /// One transaction less holds the page or waits for it. It needs a pin. A place that has no pin
    /// left is freed. Takes no memory.
    pub fn unpin(&mut self, page: PageNo)
        requires slot { has_slot self.old page ≡ true }
        requires pin { pinned self.old page ≡ true }
        ensures unpinned { self.new ≡ unpin self.old page }
        ensures sound { IsBuffer self.new }
    {
        match self.table.slot(page) {
            None => unreachable!(),
            Some((frame, slot)) => {
                let pins = slot.pins - 1;
                self.table.set_slot(frame, SlotUse { pins, ..slot });
                if self.table.bare() > 0 {
                    self.table.free_places();
                }
            }
        }
    }

    /// The page's slot moves to the front. It needs a slot. Takes no memory, and walks over nothing.
    pub fn touch(&mut self, page: PageNo)
        requires { has_slot self.old page ≡ true }
        ensures touched { self.new ≡ touch self.old page }
        ensures sound { IsBuffer self.new }
    {
        match self.table.slot(page) {
            None => unreachable!(),
            Some((frame, _slot)) => self.table.touch(frame),
        }
    }

    /// The disk has the page's copy from now on. It needs a slot. Takes no memory.
    pub fn clean(&mut self, page: PageNo)
        requires { has_slot self.old page ≡ true }
        ensures cleaned { self.new ≡ clean self.old page }
        ensures sound { IsBuffer self.new }
    {
        match self.table.slot(page) {
            None => unreachable!(),
            Some((frame, slot)) => self.table.set_slot(frame, slot.cleaned()),
        }
    }

    /// The page's slot gets a copy. It needs a slot, and bytes of the page size. Takes no memory.
    pub fn install(&mut self, page: PageNo, version: Version, bytes: &[u8], dirty: bool)
        requires slot { has_slot self.old page ≡ true }
        requires size { length bytes.now ≡ self.old.size }
        ensures installed { self.new ≡ install self.old page (record { version = version; bytes = bytes.now; dirty = dirty }) }
        ensures sound { IsBuffer self.new }
    {
        match self.table.slot(page) {
            None => unreachable!(),
            Some((frame, slot)) => {
                self.images.write(frame, 0, bytes);
                let content = Some(Content { version, dirty });
                self.table.set_slot(frame, SlotUse { content, ..slot });
            }
        }
    }

    /// The transaction's private copy gets the bytes of the page's copy; both are needed. Takes no
    /// memory.
    pub fn fill(&mut self, tx: TxId, page: PageNo)
        requires copy { is_some (copy_at self.old page) ≡ true }
        requires private { has_private self.old tx page ≡ true }
        ensures filled { self.new ≡ fill self.old tx page }
        ensures sound { IsBuffer self.new }
    {
        match self.table.slot(page) {
            None => unreachable!(),
            Some((source, _slot)) => match self.table.private(tx, page) {
                None => unreachable!(),
                Some((frame, private)) => {
                    self.images.copy(source, frame);
                    self.table.set_private(
                        frame,
                        PrivateUse {
                            filled: true,
                            ..private
                        },
                    );
                }
            },
        }
    }

    /// Bytes are put over the transaction's private copy of the page from `place` on. It needs the
    /// private copy, which stays without content where it wasn't filled, and bytes that end within
    /// the page. Takes no memory.
    pub fn change(&mut self, tx: TxId, page: PageNo, place: u32, bytes: &[u8])
        requires private { has_private self.old tx page ≡ true }
        requires inside { place + length bytes.now ≤ self.old.size }
        ensures changed { self.new ≡ change self.old tx page place bytes.now }
        ensures sound { IsBuffer self.new }
    {
        match self.table.private(tx, page) {
            None => unreachable!(),
            Some((frame, _private)) => self.images.write(frame, place as usize, bytes),
        }
    }

    /// The transaction's private copy becomes the page's copy at the next version, and its frame is
    /// free. It needs the private copy, and the page's copy at a version below the last. Takes no
    /// memory.
    pub fn publish(&mut self, tx: TxId, page: PageNo, dirty: bool)
        requires private { has_private self.old tx page ≡ true }
        requires copy { is_some (copy_at self.old page) ≡ true }
        requires below_last { IfSome (find self.old page) (λ v. v < 18_446_744_073_709_551_615) }
        ensures published { self.new ≡ publish self.old tx page dirty }
        ensures sound { IsBuffer self.new }
    {
        match self.table.slot(page) {
            None => unreachable!(),
            Some((target, slot)) => match self.table.private(tx, page) {
                None => unreachable!(),
                Some((frame, private)) => {
                    if private.filled {
                        self.images.copy(frame, target);
                        self.table.set_slot(target, slot.published(dirty));
                        self.table.release(frame);
                        return;
                    }
                    self.table.release(frame);
                }
            },
        }
    }

    /// The transaction's private copy of the page is given up, and its frame is free. It needs the
    /// private copy. Takes no memory.
    pub fn discard(&mut self, tx: TxId, page: PageNo)
        requires { has_private self.old tx page ≡ true }
        ensures discarded { self.new ≡ discard self.old tx page }
        ensures sound { IsBuffer self.new }
    {
        match self.table.private(tx, page) {
            None => unreachable!(),
            Some((frame, _private)) => self.table.release(frame),
        }
    }

    /// Gives all frames back, whatever they hold, and lets the memory go.
    pub fn close(self) {
        let BufferPool {
            images,
            table: _table,
        } = self;
        images.close();
    }
}
