//! What messages make of an entry, against what the account takes with them: those that wait keep their items, and
//! rights stay out. Each law is the clause of a function that does nothing.

mod laws;

pub use laws::{
    asking_is_wanted, ending_is_wanted, purging_is_out, purging_is_wanted, reporting_is_out,
    returning_is_out,
};
