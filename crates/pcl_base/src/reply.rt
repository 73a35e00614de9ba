use crate::names::{NodeNo, Page, PageNo, Version};
use crate::tx::TxId;

/// Why an event was refused. The first reason that holds, in this order, is the reply.
#[derive(Clone, Copy, Debug, PartialEq, Eq)]
pub enum Reason {
    /// A named node isn't one of the cluster.
    NoNode,
    /// The acting node is down.
    Down,
    /// The node has installed no view since it started.
    NotInView,
    /// The node has no such open transaction.
    NoTx,
    /// The transaction has a waiting access.
    TxWaits,
    /// The page isn't one of the database.
    NoPage,
    /// No bytes are written, or some past the end of the page.
    BadRange,
    /// A page that the transaction wrote is at the last version.
    VersionEnd,
    /// The buffer has too few frames that are free or can be freed.
    NoFrame,
    /// The link has no message.
    EmptyLink,
    /// The node has no copy of the page.
    NoCopy,
    /// An open transaction pins the slot.
    Pinned,
    /// The node doesn't serve the page's partition.
    NotOwner,
    /// A rule of views is broken.
    BadView {
        /// The number of the first broken rule: 1, 2, 4 or 6.
        rule: u8,
    },
    /// No view follows the node's own.
    NoView,
    /// A node that the view drops is up.
    StillUp,
    /// The node has used its last serial.
    SerialEnd,
    /// The node has 1,024 open transactions.
    TooMany,
}

/// What a step answers. A halt is no reply; it stands beside the replies of a trace entry.
#[derive(Debug, Drop, PartialEq)]
pub enum Reply {
    /// A transaction was opened.
    Begun {
        tx: TxId,
    },
    /// A transaction was committed.
    Committed {
        tx: TxId,
    },
    /// A transaction was given up.
    Aborted {
        tx: TxId,
    },
    /// A read was granted: the page's bytes at that version, with the transaction's own writes.
    Value {
        tx: TxId,
        page: PageNo,
        version: Version,
        bytes: Page,
    },
    /// A write was granted, over the page at that version.
    Done {
        tx: TxId,
        page: PageNo,
        version: Version,
    },
    /// An access waits.
    Waits {
        tx: TxId,
        page: PageNo,
    },
    /// The message was taken.
    Taken,
    /// The message waits at the head of its link for a later view.
    Held,
    /// The message was dropped.
    Dropped,
    /// The page's copy has left the buffer.
    Evicted,
    /// The page's copy is on disk.
    Flushed,
    /// The node has lost its state.
    Crashed,
    /// A stop was armed.
    Armed,
    /// So many bytes were cut from the front of the log.
    Cut {
        count: u64,
    },
    /// A view was made.
    Viewed {
        epoch: u32,
    },
    /// The node has installed the view of that epoch.
    Installed {
        epoch: u32,
    },
    /// All nodes were started afresh, and the view of that epoch was made.
    Reopened {
        epoch: u32,
    },
    /// The node serves the partition from now on.
    Serving {
        partition: NodeNo,
    },
    /// Nothing was changed.
    Refused {
        reason: Reason,
    },
}
