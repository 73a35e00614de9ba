//! Granted accesses: what is made of the relation of a cluster and the machine of one page where an access that is
//! granted is performed at its home, where a grant is carried out there, and where one arrives.
//!
//! Each law is the clause of a function that does nothing.

mod accesses;
mod arrivals;
mod grants;

pub use accesses::{
    held_may_access, links_go_on, perform_is_step, performs_elsewhere, tables_go_on,
};
pub use arrivals::{grant_goes_on, grant_is_kept};
pub use grants::{carry_goes, carry_leads, own_grant_goes, own_grant_leads};
