//! Who holds a page and who has a right in the tables of a node in a view is of a life there.
//!
//! A table gets its holders and rights from messages that count in the node's view, and from the node itself, and an
//! install takes out what the new view drops. Each law is the clause of a function that does nothing.

mod lives;

pub use lives::{
    gathered_are_living, holders_are_living, listed_are_living, opening_has_table_lives,
    rights_are_living, steps_have_table_lives,
};
