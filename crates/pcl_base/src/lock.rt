use crate::items::Items;
use crate::names::{NodeNo, Page, PageNo, Version};
use crate::tx::{Mode, TxId};

/// A transaction that holds a page, in the page's lock entry.
#[derive(Clone, Copy, Debug, Default, PartialEq, Eq)]
pub struct Holder {
    /// The transaction.
    pub tx: TxId,
    /// The mode.
    pub mode: Mode,
}

/// A node that has the right to read a page by itself, in the page's lock entry.
#[derive(Clone, Copy, Debug, Default, PartialEq, Eq)]
pub struct RightMark {
    /// The node.
    pub node: NodeNo,
    /// Whether a revocation was sent.
    pub revoked: bool,
}

/// A transaction that waits for a page, in the page's lock entry.
#[derive(Clone, Copy, Debug, Default, PartialEq, Eq)]
pub struct Waiter {
    /// The transaction.
    pub tx: TxId,
    /// The mode that it waits for.
    pub mode: Mode,
    /// The version of its node's copy, if it has one.
    pub have: Option<Version>,
}

/// What the owner does next about a page.
#[derive(Clone, Copy, Debug, PartialEq, Eq)]
pub enum Decision {
    /// Grants the page to a transaction that waits.
    Grant {
        tx: TxId,
        mode: Mode,
        right: bool,
        have: Option<Version>,
    },
    /// Takes back a node's right to read the page.
    Revoke {
        node: NodeNo,
    },
}

/// By what a transaction holds a page.
#[derive(Clone, Copy, Debug, Default, PartialEq, Eq)]
pub enum Kind {
    /// By an entry of its own node.
    #[default]
    Own,
    /// By an entry of another node.
    Registered,
    /// By the right of its own node to read the page.
    Right,
}

/// A page that a transaction holds.
#[derive(Clone, Copy, Debug, Default, PartialEq, Eq)]
pub struct Held {
    /// The page.
    pub page: PageNo,
    /// The mode.
    pub mode: Mode,
    /// By what it is held.
    pub kind: Kind,
}

/// An access that waits.
#[derive(Debug, Drop, PartialEq)]
pub struct Pending {
    /// The page.
    pub page: PageNo,
    /// The mode that it waits for.
    pub mode: Mode,
    /// The place and the bytes of a write; none for a read.
    pub write: Option<(u32, Page)>,
}

/// What a transaction had when it ended.
#[derive(Debug, Drop, PartialEq)]
pub struct Ended {
    /// Its pages in the order of first access.
    pub pages: Items<Held>,
    /// The access that waited.
    pub waiting: Option<Pending>,
}

/// What becomes of a message at its receiver.
#[derive(Clone, Copy, Debug, PartialEq, Eq)]
pub enum Verdict {
    /// It is worked off.
    Taken,
    /// It stays the head of its link until the receiver has a later view.
    Held,
    /// It is of an earlier life or an earlier owner, and does nothing.
    Dropped,
}
