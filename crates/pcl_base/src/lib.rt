#![tactic(auto)]

//! The words of the whole engine: names, limits, events, replies, messages, lock lists, log
//! records and trace entries, and the two ends that bytes come from and go to.
//!
//! Every type here is plain data that contracts see field by field. A list is an [`Items`],
//! which contracts see as a list.

mod config;
mod event;
mod fault;
mod items;
mod lock;
mod log;
mod message;
mod names;
mod reply;
mod script;
mod sink;
mod source;
mod trace;
mod tx;

pub use config::{Config, ConfigFault};
pub use event::{Event, Header};
pub use fault::{Failed, NoMemory};
pub use items::Items;
pub use lock::{Decision, Ended, Held, Holder, Kind, Pending, RightMark, Verdict, Waiter};
pub use log::{ChangedRange, Logged, Part, Ranges, Record, Seen};
pub use message::{
    Body, Change, CopyPart, Grant, Message, Release, Report, ReportLock, ReportRight, ReportWait,
    Request, ReturnRight,
};
pub use names::{NodeNo, Page, PageNo, Version};
pub use reply::{Reason, Reply};
pub use script::{Script, Step};
pub use sink::{MemSink, Sink};
pub use source::{MemSource, Source};
pub use trace::{Call, CopyKind, Entry, Halt, Note, Sent};
pub use tx::{Mode, TxId};
