#![tactic(auto)]

//! The abstract machine of one page in a whole cluster, its invariant, and the laws that follow.
//!
//! The machine has what is true of the page (its current version, the bytes of each version, the committed scripts),
//! what is stored (disk and logs), what each node has (its era, copy and right) and each transaction (where it stands at
//! its home, its accesses, its private copy), and what the authority that serves and each later era have of it. It knows
//! no list of nodes, no message and no trace. Its steps are everything that the rules do to a page, each with what must
//! hold for it (`specs/Steps.antt`).
//!
//! One invariant (`specs/Invariant.antt`) is kept by every step, so it holds after every run. From it come the laws of
//! this crate: committed scripts replay, accesses are fresh, redo gives the current page, one writer or readers alone,
//! and a grant that is taken brings the current page. Nothing is said of progress.
//!
//! `docs/page-protocol.md` says in plain words what each part is, and what a relation from clusters to this machine has
//! to deliver.

mod laws;
mod more_rows;
mod rows;

pub use laws::{
    accesses_are_fresh, answers_name_who_accessed, committed_scripts_replay,
    each_version_is_logged_once, grants_bring_the_current_page, history_stays,
    later_eras_list_who_accessed, one_writer_or_readers, redo_gives_the_current_page,
    rights_are_current, rights_are_given_back_in_time, runs_keep_the_invariant,
    steps_keep_the_invariant,
};
pub use more_rows::{
    a_new_owner_stops_within_redo, a_node_comes_back, a_revocation_waits_for_an_open_reader,
    a_survivor_commits_before_its_report, the_image_goes_with_the_release,
};
pub use rows::{
    a_commit_is_logged_at_its_node, a_grant_tells_no_stale_copy, a_late_grant_is_not_taken,
    a_lost_release_is_redone, a_move_keeps_a_reader, a_reader_bars_a_writer,
    a_report_lists_the_writer, a_write_is_read_elsewhere, a_writer_bars_all,
    an_answer_names_each_reader, an_era_waits_for_the_last_report,
    without_the_chain_two_would_hold,
};
