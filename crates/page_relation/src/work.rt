//! The relation inside a step: what each part of a step of a node does to the relation of a cluster and the machine of
//! one page.
//!
//! A step is followed through its works, each taken as the cluster as if the step had ended with it. Here stand how a
//! step starts and ends, when an operation keeps the relation and how such operations are put together, what leaves
//! each part of the relation alone, and the simplest events whole. Each law is the clause of a function that does
//! nothing.

mod alike;
mod ends;
mod events;
mod frames;
mod sends;

pub use alike::{
    calls_elsewhere, entries_elsewhere, grants_elsewhere, homes_elsewhere, quiet_replies,
    reads_elsewhere, sends_elsewhere, tables_elsewhere, writes_elsewhere,
};
pub use ends::{end_is_landed, head_is_said, refused_is_kept, start_is_related};
pub use events::{
    back_keeps, begin_is_kept, cut_is_kept, evict_is_kept, flush_is_kept, frames_keep, gone_keeps,
    letting_go_leads, untaken_is_kept,
};
pub use frames::{
    copies_stay, history_stays, homes_stay, landing_is_seen, links_stay, nodes_stay, rest_stays,
    stored_stays, tables_stay, unseen_goes_on, unseen_is_kept,
};
pub use sends::{
    back_is_not_earlier, nothing_is_ahead, revoke_is_kept, send_is_kept, send_is_linked,
    spending_is_step, spends_elsewhere, taken_is_said,
};
