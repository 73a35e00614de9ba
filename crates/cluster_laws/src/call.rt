//! Laws of the calls of a step: which of them change a log, and that the logs of nodes in a view are whole.
//!
//! A step makes at most one call on its node's log, before all others, and else writes pages
//! (`specs/Calls.antt`). Each law is the clause of a function that does nothing.

mod call_rows;
mod calls;
mod logs;

pub use call_rows::{row_of_calls, row_of_logs};
pub use calls::{
    calls_change_log, calls_keep_other_logs, steps_begin_with_logs, stops_keep_other_logs,
    writes_keep_logs,
};
pub use logs::{opening_has_whole_logs, steps_keep_whole_logs};
