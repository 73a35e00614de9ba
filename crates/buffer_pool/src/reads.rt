ghost use Rattle.std.specs.Prelude.{◌≡◌, true, length, is_some, option_map, not, ◌||◌, IfSome};
ghost use Rattle.std.specs.Option.{option_copied};
ghost use Rattle.node_rules.specs.BufferRule.{find, has_slot, pinned, dirty, copy_at, bytes_of_copy, private_bytes, has_private, free_frames, one_unless, fits, victim};
ghost use Rattle.buffer_pool.specs.Buffer.{IsBuffer};

use crate::pool::BufferPool;
use pcl_base::{PageNo, TxId, Version};

impl BufferPool {
    /// The version of the page's copy; `None` exactly where there is no copy.
    pub fn find(&self, page: PageNo) -> Option<Version>
        ensures { result ≡ find self.now page }
    {
        let (_frame, slot) = self.table.slot(page)?;
        let content = slot.content?;
        Some(content.version)
    }

    /// Whether the page has a slot: a copy, or a place without content.
    pub fn has_slot(&self, page: PageNo) -> bool
        ensures answer { result ≡ has_slot self.now page }
        ensures sound { IsBuffer self.now }
    {
        self.table.slot(page).is_some()
    }

    /// Whether the page's slot is pinned; false without a slot.
    pub fn pinned(&self, page: PageNo) -> bool
        ensures { result ≡ pinned self.now page }
    {
        match self.table.slot(page) {
            None => false,
            Some((_frame, slot)) => slot.pins != 0,
        }
    }

    /// Whether the disk lacks the page's copy; false without a copy.
    pub fn dirty(&self, page: PageNo) -> bool
        ensures { result ≡ dirty self.now page }
    {
        match self.table.slot(page) {
            None => false,
            Some((_frame, slot)) => slot.is_dirty(),
        }
    }

    /// The bytes of the page's copy.
    pub fn bytes(&self, page: PageNo) -> &[u8]
        requires { is_some (copy_at self.now page) ≡ true }
        ensures value { result.now ≡ bytes_of_copy (copy_at self.now page) }
        ensures len { length result.now ≡ self.now.size }
    {
        match self.table.slot(page) {
            None => unreachable!(),
            Some((frame, _slot)) => self.images.bytes(frame),
        }
    }

    /// The bytes of the transaction's private copy of the page; `None` exactly where there is none
    /// or it wasn't filled yet.
    pub fn private_bytes(&self, tx: TxId, page: PageNo) -> Option<&[u8]>
        ensures value { option_copied result ≡ private_bytes self.now tx page }
        ensures len { IfSome result (λ bytes. length bytes.now ≡ self.now.size) }
    {
        match self.table.private(tx, page) {
            None => None,
            Some((frame, private)) => {
                if private.filled {
                    return Some(self.images.bytes(frame));
                }
                None
            }
        }
    }

    /// How many frames are free.
    pub fn free(&self) -> u32
        ensures value { result ≡ free_frames self.now }
        ensures sound { IsBuffer self.now }
    {
        self.table.free()
    }

    /// Whether an access of the transaction finds the frames that it needs: one where the page has
    /// no slot, and one more where it writes and has no private copy of the page. It finds them
    /// among the free frames and those of unpinned slots of other pages.
    pub fn fits(&self, tx: TxId, page: PageNo, write: bool) -> bool
        ensures answer { result ≡ fits self.now tx page write }
        ensures sound { IsBuffer self.now }
    {
        self.slot_need(page) + self.private_need(tx, page, write)
            <= self.table.free() + self.table.can_go(page)
    }

    // The frames that an access needs for the page's slot.
    fn slot_need(&self, page: PageNo) -> u32
        ensures { result ≡ one_unless (has_slot self.now page) }
    {
        match self.table.slot(page) {
            None => 1,
            Some(_slot) => 0,
        }
    }

    // The frames that an access needs for the private copy.
    fn private_need(&self, tx: TxId, page: PageNo, write: bool) -> u32
        ensures { result ≡ one_unless (not write || has_private self.now tx page) }
    {
        if write {
            match self.table.private(tx, page) {
                None => return 1,
                Some(_private) => return 0,
            }
        }
        0
    }

    /// The page whose slot goes next: the last unpinned one but that of `keep`.
    pub fn victim(&self, keep: PageNo) -> Option<PageNo>
        ensures { result ≡ option_map (λ s. s.page) (victim self.now keep) }
    {
        self.table.victim(keep)
    }
}
