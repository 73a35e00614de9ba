//! Settling an entry, against what the account has at its owner: the items of those that wait, and the rights that are
//! out. Each law is the clause of a function that does nothing.

mod laws;

pub use laws::{a_writer_waits, grants_find_items, revocations_find_rights};
