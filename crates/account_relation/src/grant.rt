//! Grants and revocations of a settled page have their causes, where those that wait have their items and the rights
//! are out. Each law is the clause of a function that does nothing.

mod laws;

pub use laws::{decisions_have_causes, owners_get_no_rights, settles_send};
