#![tactic(auto)]

//! What holds of every home of transactions, and that each rule keeps it. Each law is the clause of a
//! function that does nothing.

mod access_laws;
mod end_laws;
mod laws;

pub use access_laws::{access_is_sound, granted_is_sound, on_grant_is_sound, on_revoke_is_sound};
pub use end_laws::{
    abort_is_sound, begin_is_sound, born_at_is_sound, clean_is_sound, commit_is_sound,
    evict_is_sound, give_up_is_sound, put_change_is_sound, record_is_sound, take_over_is_sound,
    write_back_is_sound,
};
pub use laws::{open_home_is_sound, refusals_agree};
