use crate::items::Items;
use crate::names::{Page, PageNo};
use crate::tx::TxId;

/// One granted access of a transaction.
#[derive(Debug, Drop, PartialEq)]
pub enum Step {
    /// A read, with the bytes that it was answered with.
    Read {
        page: PageNo,
        bytes: Page,
    },
    /// A write of these bytes, from a place on.
    Write {
        page: PageNo,
        place: u32,
        bytes: Page,
    },
}

/// The granted accesses of a transaction in the order in which they were granted.
#[derive(Debug, Drop, PartialEq)]
pub struct Script {
    /// The transaction.
    pub tx: TxId,
    /// Its accesses.
    pub steps: Items<Step>,
}
