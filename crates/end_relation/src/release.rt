//! The end of a transaction at the table of the page's owner: by a release that arrives, and by the owner's own node.
//!
//! Where the change of an ended writer goes, and the end of its transaction in the entry, are one jump of the machine of
//! one page: to the owner's slot, to the disk where there is no slot, or nowhere where there is no change, it isn't the
//! next one, or the table is being rebuilt. Then the page is settled: that settling keeps the relation is a premise here.
//! Each law is the clause of a function that does nothing.

mod own;
mod releases;

pub use own::{
    no_own_end_differs, open_is_unreleased, own_end_elsewhere, own_end_keeps, own_is_unreported,
    untold_stays,
};
pub use releases::{no_release_differs, release_is_kept};
