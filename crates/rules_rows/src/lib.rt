#![tactic(auto)]

//! Worked schedules, run by the rules: the text of each run is the text that stands beside it. The
//! checker computes every row, so these functions have no bodies.

mod altered;
mod bad_schedules;
mod buffers_1;
mod buffers_2;
mod failures_1;
mod failures_2;
mod failures_3;
mod failures_4;
mod generated;
mod paths_1;
mod paths_2;
mod paths_3;
mod rights;
mod stops_1;
mod stops_10;
mod stops_11;
mod stops_12;
mod stops_13;
mod stops_14;
mod stops_15;
mod stops_16;
mod stops_17;
mod stops_18;
mod stops_19;
mod stops_2;
mod stops_20;
mod stops_21;
mod stops_22;
mod stops_23;
mod stops_3;
mod stops_4;
mod stops_5;
mod stops_6;
mod stops_7;
mod stops_8;
mod stops_9;
mod telling_1;
mod telling_2;
mod telling_3;
mod telling_4;
mod telling_5;
mod telling_6;
mod telling_7;
mod telling_8;
