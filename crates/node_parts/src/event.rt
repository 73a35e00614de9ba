use authority_map::View;
use pcl_base::{Message, NodeNo, Page, PageNo, TxId};

/// What a node is asked to do in one step.
#[derive(Debug, Drop)]
pub enum NodeEvent {
    /// Opens a transaction.
    Begin,
    /// Reads a page.
    Read {
        tx: TxId,
        page: PageNo,
    },
    /// Writes bytes into a page, from a place on.
    Write {
        tx: TxId,
        page: PageNo,
        place: u32,
        bytes: Page,
    },
    /// Commits a transaction.
    Commit {
        tx: TxId,
    },
    /// Gives a transaction up.
    Abort {
        tx: TxId,
    },
    /// Takes a message from another node.
    Deliver {
        from: NodeNo,
        message: Message,
    },
    /// Takes the page's copy out of the buffer.
    Evict {
        page: PageNo,
    },
    /// Writes the page's copy to disk.
    Flush {
        page: PageNo,
    },
    /// Installs a view.
    Install {
        view: View,
    },
    /// Cuts what is no longer needed from the front of the log.
    Cut,
}
