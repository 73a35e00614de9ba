#![tactic(auto)]

//! Accesses and ends of transactions keep the relation of a cluster and the machine of one page.
//!
//! A commit and an abort are two parts. At the home the transaction is closed and answered: at each page one jump of the
//! machine, which for a commit concerns all pages at once (`proofs/Past`, `proofs/Committed`). Then the owner of each page
//! is told: another node by a release (`proofs/Telling`, `proofs/Told`), and at the node's own tables by ends (`release`,
//! where releases that arrive stand too). Reads and writes are in `access`. Each law is the clause of a function that does
//! nothing.

mod access;
mod ends;
mod release;

pub use access::{
    altered_is_related, asking_is_entered, read_goes, read_is_kept, reading_is_step,
    reading_under_is_step, waiting_is_step, waiting_is_told_first, write_goes, write_is_kept,
    writing_is_step,
};
pub use ends::{
    abort_goes, abort_is_kept, abort_leaves, commit_goes, commit_is_kept, commit_leaves,
};
pub use release::{
    no_own_end_differs, no_release_differs, open_is_unreleased, own_end_elsewhere, own_end_keeps,
    own_is_unreported, release_is_kept, untold_stays,
};
