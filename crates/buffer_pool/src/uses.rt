use pcl_base::{NodeNo, PageNo, TxId, Version};

/// What a frame is used for.
#[derive(Clone, Copy, Debug, PartialEq, Eq)]
pub(crate) enum Use {
    Free,
    Slot(SlotUse),
    Private(PrivateUse),
}

/// The slot of a page.
#[derive(Clone, Copy, Debug, PartialEq, Eq)]
pub(crate) struct SlotUse {
    pub(crate) page: PageNo,
    /// The frame's content, none in a place.
    pub(crate) content: Option<Content>,
    pub(crate) pins: u32,
}

/// What a copy is beside its bytes.
#[derive(Clone, Copy, Debug, PartialEq, Eq)]
pub(crate) struct Content {
    pub(crate) version: Version,
    /// Whether the disk lacks it.
    pub(crate) dirty: bool,
}

/// The private copy of a page for a transaction.
#[derive(Clone, Copy, Debug, PartialEq, Eq)]
pub(crate) struct PrivateUse {
    pub(crate) tx: TxId,
    pub(crate) page: PageNo,
    /// Whether the frame has its content already.
    pub(crate) filled: bool,
}

/// What a used frame is found by.
#[derive(Clone, Copy, Debug, PartialEq, Eq, Hash)]
pub(crate) enum Name {
    /// The slot of a page.
    Slot(PageNo),
    /// The private copy of a transaction and a page.
    Private(NodeNo, u32, u32, PageNo),
}

impl Name {
    ghost use Rattle.std.specs.Prelude.{◌≡◌};
    ghost use Rattle.buffer_pool.specs.Kept.{private_name};

    /// The name of a private copy.
    pub(crate) fn private(tx: TxId, page: PageNo) -> Name
        ensures { result ≡ private_name tx page }
    {
        Name::Private(tx.node, tx.born, tx.serial, page)
    }
}

impl Use {
    ghost use Rattle.std.specs.Prelude.{◌≡◌, Some, None, option_map};
    ghost use Rattle.buffer_pool.specs.Entries.{slot_in_use, private_in_use, page_in_use, is_loose, is_bare};
    ghost use Rattle.buffer_pool.specs.Kept.{name_of};

    /// The frame, where it is the page's slot.
    pub(crate) fn slot_of(&self, frame: u32, page: PageNo) -> Option<(u32, SlotUse)>
        ensures { result ≡ slot_in_use page frame self.now }
    {
        match self {
            Use::Slot(slot) => {
                if slot.page == page {
                    return Some((frame, *slot));
                }
                None
            }
            _ => None,
        }
    }

    /// The frame, where it is the transaction's private copy of the page.
    pub(crate) fn private_of(&self, frame: u32, tx: TxId, page: PageNo) -> Option<(u32, PrivateUse)>
        ensures { result ≡ private_in_use tx page frame self.now }
    {
        match self {
            Use::Private(private) => {
                if private.tx == tx && private.page == page {
                    return Some((frame, *private));
                }
                None
            }
            _ => None,
        }
    }

    /// The page of an unpinned slot, but for `keep`.
    pub(crate) fn page_to_go(&self, keep: PageNo) -> Option<PageNo>
        ensures { result ≡ page_in_use keep self.now }
    {
        match self {
            Use::Slot(slot) => {
                if slot.page != keep && slot.pins == 0 {
                    return Some(slot.page);
                }
                None
            }
            _ => None,
        }
    }

    /// What the frame is found by; none where it is free.
    pub(crate) fn name(&self) -> Option<Name>
        ensures { result ≡ name_of self.now }
    {
        match self {
            Use::Free => None,
            Use::Slot(slot) => Some(Name::Slot(slot.page)),
            Use::Private(private) => Some(Name::private(private.tx, private.page)),
        }
    }

    /// Whether it is an unpinned slot.
    pub(crate) fn is_loose(&self) -> bool
        ensures { result ≡ is_loose self.now }
    {
        match self {
            Use::Slot(slot) => slot.pins == 0,
            _ => false,
        }
    }

    /// Whether it is a place without a pin.
    pub(crate) fn is_bare(&self) -> bool
        ensures { result ≡ is_bare self.now }
    {
        match self {
            Use::Slot(slot) => slot.content.is_none() && slot.pins == 0,
            _ => false,
        }
    }
}

impl SlotUse {
    ghost use Rattle.std.specs.Prelude.{◌≡◌, ◌+◌, ◌<◌, Some, None, IfSome, option_map};
    ghost use Rattle.buffer_pool.specs.Uses.{is_dirty_content, cleaned_content, published_content};

    /// Whether there is a copy that the disk lacks.
    pub(crate) fn is_dirty(&self) -> bool
        ensures { result ≡ is_dirty_content self.now.content }
    {
        match self.content {
            None => false,
            Some(content) => content.dirty,
        }
    }

    /// The same slot, whose copy is on disk.
    pub(crate) fn cleaned(&self) -> SlotUse
        ensures { result ≡ record self.now { content = cleaned_content self.now.content } }
    {
        match self.content {
            None => *self,
            Some(content) => SlotUse {
                content: Some(Content {
                    dirty: false,
                    ..content
                }),
                ..*self
            },
        }
    }

    /// The same slot, whose copy is at the next version.
    pub(crate) fn published(&self, dirty: bool) -> SlotUse
        requires { IfSome self.now.content (λ c. c.version < 18_446_744_073_709_551_615) }
        ensures { result ≡ record self.now { content = published_content dirty self.now.content } }
    {
        match self.content {
            None => *self,
            Some(content) => SlotUse {
                content: Some(Content {
                    version: content.version + 1,
                    dirty,
                }),
                ..*self
            },
        }
    }
}
