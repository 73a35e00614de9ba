use crate::event::Event;
use crate::items::Items;
use crate::message::{ReportLock, ReportRight, ReportWait};
use crate::names::{NodeNo, PageNo, Version};
use crate::reply::Reply;
use crate::tx::{Mode, TxId};

/// A kind of device call, by the word that a halt names.
#[derive(Clone, Copy, Debug, PartialEq, Eq)]
pub enum Call {
    /// Reading a page.
    Read,
    /// Reading a log or its length.
    Log,
    /// Writing a page.
    Write,
    /// Appending to a log.
    Force,
    /// Trimming the end of a log.
    Trim,
    /// Cutting the front of a log.
    Cut,
}

/// A node stopped because a device call failed.
#[derive(Clone, Copy, Debug, PartialEq, Eq)]
pub struct Halt {
    /// The kind of the call that failed.
    pub call: Call,
    /// The transaction whose whole commit record was appended in this step.
    pub kept: Option<TxId>,
}

/// What a grant says of the copy, without the bytes of an image.
#[derive(Clone, Copy, Debug, PartialEq, Eq)]
pub enum CopyKind {
    /// The asker's own copy is the page.
    Current,
    /// The page travels with the grant.
    Image,
    /// The page is on disk.
    OnDisk,
}

/// The body of a message as the trace has it: every field but the bytes of images.
#[derive(Debug, Drop, PartialEq)]
pub enum Note {
    /// A lock request.
    Request {
        tx: TxId,
        page: PageNo,
        mode: Mode,
        have: Option<Version>,
    },
    /// A grant.
    Grant {
        tx: TxId,
        page: PageNo,
        mode: Mode,
        right: bool,
        version: Version,
        copy: CopyKind,
    },
    /// A release, with the version that it brings.
    Release {
        tx: TxId,
        page: PageNo,
        change: Option<Version>,
    },
    /// A revocation.
    Revoke {
        page: PageNo,
    },
    /// The answer to a revocation.
    Return {
        page: PageNo,
        readers: Items<TxId>,
    },
    /// A report.
    Report {
        partition: NodeNo,
        waits: Items<ReportWait>,
        locks: Items<ReportLock>,
        rights: Items<ReportRight>,
    },
}

/// A message that an entry sent.
#[derive(Debug, Drop, PartialEq)]
pub struct Sent {
    /// The sender.
    pub from: NodeNo,
    /// The receiver.
    pub to: NodeNo,
    /// The epoch of the sender's view.
    pub epoch: u32,
    /// What it says.
    pub note: Note,
}

/// One entry of a trace: an event and all that it gave.
#[derive(Debug, Drop, PartialEq)]
pub struct Entry {
    /// The event.
    pub event: Event,
    /// The replies in order.
    pub replies: Items<Reply>,
    /// The messages in the order in which they were sent.
    pub sent: Items<Sent>,
    /// The halt that ended the step.
    pub halted: Option<Halt>,
}
