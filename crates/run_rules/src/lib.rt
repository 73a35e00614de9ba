#![tactic(auto)]

//! What is right of a run, as definitions: the base, scripts and running them, the serial order,
//! *now*, *fresh*, *serial*, views, *redo*, *durable* and the *account*. They stand in `specs/`,
//! and the functions here are computed rows of them.

mod account_rows;
mod disk_rows;
mod rows;
mod view_rows;
