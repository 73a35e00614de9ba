#![tactic(auto)]

//! The relation of a cluster and the machine of one page.
//!
//! `page_protocol` proves what is true of one page over an abstract machine. Here stands when a cluster and a
//! state of that machine say the same of a page (`specs/Relation.antt`), and what is asked of the cluster beside
//! its pages (`specs/Together.antt`). The opening cluster has all of it. In folders of their own: the relation inside
//! a step of a node, what leaves it alone, and the simplest events (`work`); and what is lost, views, reopenings and
//! stops (`loss`). Each law is the clause of a function that does nothing.

mod laws;
mod loss;
mod work;

pub use laws::{opening_is_related, opening_is_whole};
pub use loss::{
    armed_is_related, crashed_is_related, differing_is_related, halted_is_related,
    ordinary_halts_are_related, quiet_events_keep_related, refused_is_related, reopened_is_related,
    steps_write_versions, viewed_is_related,
};
pub use work::{
    back_is_not_earlier, back_keeps, begin_is_kept, calls_elsewhere, copies_stay, cut_is_kept,
    end_is_landed, entries_elsewhere, evict_is_kept, flush_is_kept, frames_keep, gone_keeps,
    grants_elsewhere, head_is_said, history_stays, homes_elsewhere, homes_stay, landing_is_seen,
    letting_go_leads, links_stay, nodes_stay, nothing_is_ahead, quiet_replies, reads_elsewhere,
    refused_is_kept, rest_stays, revoke_is_kept, send_is_kept, send_is_linked, sends_elsewhere,
    spending_is_step, spends_elsewhere, start_is_related, stored_stays, tables_elsewhere,
    tables_stay, taken_is_said, unseen_goes_on, unseen_is_kept, untaken_is_kept, writes_elsewhere,
};
