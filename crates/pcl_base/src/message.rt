use crate::items::Items;
use crate::names::{NodeNo, Page, PageNo, Version};
use crate::tx::{Mode, TxId};

/// A message between two nodes. Its epoch is that of its sender's view when it was sent, at
/// least 1.
#[derive(Debug, Drop, PartialEq)]
pub struct Message {
    /// The epoch of the sender's view.
    pub epoch: u32,
    /// What the message says.
    pub body: Body,
}

/// What a message says.
#[derive(Debug, Drop, PartialEq)]
pub enum Body {
    /// Asks the owner for a lock.
    Request(Request),
    /// The owner's answer to a request.
    Grant(Grant),
    /// A transaction has ended at its home.
    Release(Release),
    /// The owner takes the right to read this page back.
    Revoke { page: PageNo },
    /// The answer to a revocation.
    Return(ReturnRight),
    /// What a node holds of a partition that has got a new owner.
    Report(Report),
}

/// A lock request.
#[derive(Clone, Copy, Debug, PartialEq, Eq)]
pub struct Request {
    /// The transaction that asks.
    pub tx: TxId,
    /// The page that is asked for.
    pub page: PageNo,
    /// The mode that is asked for.
    pub mode: Mode,
    /// The version of the asking node's copy, if it has one.
    pub have: Option<Version>,
}

/// A grant. It carries a right only where the mode is shared.
#[derive(Debug, Drop, PartialEq)]
pub struct Grant {
    /// The transaction that asked.
    pub tx: TxId,
    /// The page.
    pub page: PageNo,
    /// The mode that was asked for.
    pub mode: Mode,
    /// Whether the node gets the right to read the page by itself.
    pub right: bool,
    /// The version of the page.
    pub version: Version,
    /// Where the page of that version is.
    pub copy: CopyPart,
}

/// Where the asker finds the page of a grant's version.
#[derive(Debug, Drop, PartialEq)]
pub enum CopyPart {
    /// The asker's own copy has that version.
    Current,
    /// These are the bytes.
    Image(Page),
    /// The disk has that version.
    OnDisk,
}

/// A transaction has ended; its locks and requests on the page end too.
#[derive(Debug, Drop, PartialEq)]
pub struct Release {
    /// The transaction that has ended.
    pub tx: TxId,
    /// The page.
    pub page: PageNo,
    /// The page as the transaction left it, where it committed a write of it.
    pub change: Option<Change>,
}

/// A page as a committed transaction left it.
#[derive(Debug, Drop, PartialEq)]
pub struct Change {
    /// The version, at least 1.
    pub version: Version,
    /// The bytes of the whole page.
    pub image: Page,
}

/// The answer to a revocation: the transactions that still read under the right, in the order in
/// which they began to.
#[derive(Debug, Drop, PartialEq)]
pub struct ReturnRight {
    /// The page.
    pub page: PageNo,
    /// The transactions that hold the page shared from now on.
    pub readers: Items<TxId>,
}

/// What a node holds of a partition that has got a new owner.
#[derive(Debug, Drop, PartialEq)]
pub struct Report {
    /// The partition.
    pub partition: NodeNo,
    /// The accesses that wait.
    pub waits: Items<ReportWait>,
    /// The registered locks.
    pub locks: Items<ReportLock>,
    /// The rights, in the order of their acceptance.
    pub rights: Items<ReportRight>,
}

/// An access that waits.
#[derive(Clone, Copy, Debug, PartialEq, Eq)]
pub struct ReportWait {
    /// The transaction that waits.
    pub tx: TxId,
    /// The page.
    pub page: PageNo,
    /// The mode that it waits for.
    pub mode: Mode,
    /// The version of the node's copy, if it has one.
    pub have: Option<Version>,
}

/// A registered lock.
#[derive(Clone, Copy, Debug, PartialEq, Eq)]
pub struct ReportLock {
    /// The transaction that holds it.
    pub tx: TxId,
    /// The page.
    pub page: PageNo,
    /// The mode.
    pub mode: Mode,
}

/// A right to read a page.
#[derive(Clone, Copy, Debug, PartialEq, Eq)]
pub struct ReportRight {
    /// The page.
    pub page: PageNo,
    /// The version that may be read.
    pub version: Version,
}
