//! What a transaction wrote of a page, over the definitions alone: its private copy differs from the page
//! before within the noted runs alone, so what a commit logs of them gives the private copy again. Each law
//! is the clause of a function that does nothing.

mod laws;
mod record;
mod rows;

pub use laws::{logged_is_put, nothing_differs, piece_differs, piece_is_put};
pub use record::{
    commit_is_elsewhere, commit_is_logged, record_can_be_written, record_has_written,
};
pub use rows::row_of_runs;
