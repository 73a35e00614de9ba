use crate::items::Items;
use crate::names::{NodeNo, Page, PageNo};
use crate::tx::TxId;

/// The numbers of a schedule's first line, within their grammar and not yet judged as a
/// configuration: each is 0 to 65,536.
#[derive(Clone, Copy, Debug, PartialEq, Eq)]
pub struct Header {
    /// The number of nodes.
    pub nodes: u32,
    /// The number of pages.
    pub pages: u32,
    /// The bytes of a page.
    pub size: u32,
    /// The frames of one node's buffer.
    pub frames: u32,
}

/// One event of a schedule: a step of one node, or of the environment.
#[derive(Debug, Drop, PartialEq)]
pub enum Event {
    /// Opens a transaction at the node.
    Begin {
        node: NodeNo,
    },
    /// Reads a page.
    Read {
        tx: TxId,
        page: PageNo,
    },
    /// Writes bytes into a page, from a place on.
    Write {
        tx: TxId,
        page: PageNo,
        place: u32,
        bytes: Page,
    },
    /// Commits the transaction.
    Commit {
        tx: TxId,
    },
    /// Gives the transaction up.
    Abort {
        tx: TxId,
    },
    /// Delivers the first message of the link from one node to another.
    Deliver {
        from: NodeNo,
        to: NodeNo,
    },
    /// Takes the page's copy out of the node's buffer.
    Evict {
        node: NodeNo,
        page: PageNo,
    },
    /// Writes the page's copy to disk.
    Flush {
        node: NodeNo,
        page: PageNo,
    },
    /// The node loses its state.
    Crash {
        node: NodeNo,
    },
    /// Makes the next view from a flag for each node and an owner for each partition.
    View {
        live: Items<bool>,
        owners: Items<NodeNo>,
    },
    /// The node installs the view after its own.
    Install {
        node: NodeNo,
    },
    /// Starts all nodes afresh and makes the next view.
    Reopen,
    /// Makes the node's `call`-th changing call from now on, counted from 1, fail; `kept` says
    /// what of it is done.
    Arm {
        node: NodeNo,
        call: u32,
        kept: u32,
    },
    /// Cuts what is no longer needed from the front of the node's log.
    Cut {
        node: NodeNo,
    },
}
