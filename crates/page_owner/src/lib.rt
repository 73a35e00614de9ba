#![tactic(auto)]

//! What an owner does with its pages: it plans what becomes of a page's entry, puts it in, and carries the
//! decisions out.

mod arrive;
mod carry;
mod deliver;
mod enter;
mod plans;
mod release;
mod take;
#[cfg(test)]
mod tests;

pub use arrive::{take_grant, take_revoke};
pub use carry::{OwnPage, carry as carry_one, carry_all};
pub use deliver::{deliver_other, judge, work_off};
pub use enter::{enter_among, enter_planned, prepare};
pub use plans::{plan_release, plan_request, plan_return};
pub use release::take_release;
pub use take::{take_none, take_request, take_return};
