use crate::items::Items;
use crate::names::{Page, PageNo, Version};
use crate::tx::TxId;

/// What a committed transaction wrote.
#[derive(Debug, Drop, PartialEq)]
pub struct Record {
    /// The transaction.
    pub tx: TxId,
    /// The written pages, rising by number.
    pub changes: Items<Logged>,
}

/// One page of a record.
#[derive(Debug, Drop, PartialEq)]
pub struct Logged {
    /// The page.
    pub page: PageNo,
    /// The version that the commit made, at least 1.
    pub version: Version,
    /// What of the page stands in the record.
    pub part: Part,
}

/// What of a page stands in a record.
#[derive(Debug, Drop, PartialEq)]
pub enum Part {
    /// The whole page: format 1.
    Image(Page),
    /// The changed ranges alone: format 2.
    Ranges(Ranges),
}

/// The changed ranges of a page, rising and apart from one another.
pub type Ranges = Items<ChangedRange>;

/// A run of places of a page with its bytes.
#[derive(Debug, Drop, PartialEq)]
pub struct ChangedRange {
    /// The first place.
    pub place: u32,
    /// The bytes, at least one.
    pub bytes: Page,
}

/// A changed page that a walk over a log came to.
#[derive(Clone, Copy, Debug, PartialEq, Eq)]
pub struct Seen {
    /// The page.
    pub page: PageNo,
    /// The version that the commit made.
    pub version: Version,
    /// The place in the log of the first byte of the page's entry in its record.
    pub place: u64,
    /// Whether the whole page stands there (format 1).
    pub whole: bool,
}
