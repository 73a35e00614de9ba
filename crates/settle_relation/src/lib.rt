#![tactic(auto)]

//! Settling, and what arrives at an owner, keep the relation of a cluster and the machine of one page.
//!
//! An owner settles a page's entry and carries the decisions out one by one. The relation is followed through them with
//! the entry rewound to where it is after the decisions so far: a grant is the machine's, with or without a right, and
//! one to an own transaction is accepted and performed at once; a revocation changes nothing but marks. Here stand what
//! is known of a work inside a step, whatever page; that settling keeps the relation of each page; and whole the two
//! messages that do no more than change an entry and settle: a request, and an answer to a revocation. Nor does any page
//! differ that is read for it. Each law is the clause of a function that does nothing.

mod arriving;
mod grant;
mod settling;

pub use arriving::{request_agrees, request_is_kept, return_agrees, return_is_kept};
pub use grant::{
    carry_goes, carry_leads, grant_goes_on, grant_is_kept, held_may_access, links_go_on,
    own_grant_goes, own_grant_leads, perform_is_step, performs_elsewhere, tables_go_on,
};
pub use settling::{
    coming_is_not_past, deciding_is_related, settling_agrees, settling_keeps, words_fit,
};
