#![tactic(auto)]

//! What holds of every cluster in a run, over the definitions of its steps alone.
//!
//! Here stand what each step keeps (`laws`), how much it adds (`count_laws`), its epochs and views; in folders of their own
//! the eras and lives that views make and which messages still count (`era`), what stands on each link and what of it comes
//! to a page (`link`), which calls of a step change a log (`call`), and that an access which waits is the one asked for last
//! (`ask`). Each law is the clause of a function that does nothing.

mod ask;
mod call;
mod count_laws;
mod epoch_laws;
mod era;
mod laws;
mod link;
mod sound_rows;
mod view_laws;

pub use ask::{opening_waits_as_asked, row_of_asked, steps_wait_as_asked};
pub use call::{
    calls_change_log, calls_keep_other_logs, opening_has_whole_logs, row_of_calls, row_of_logs,
    steps_begin_with_logs, steps_keep_whole_logs, stops_keep_other_logs, writes_keep_logs,
};
pub use count_laws::{links_grow_by_most, other_links_stay, steps_are_counted};
pub use epoch_laws::steps_keep_views;
pub use era::{
    births_are_reached, births_never_fall, counted_before, counted_unborn, counting_is_of_life,
    counting_is_of_view, counts_stay, epochs_have_views, eras_are_reached, eras_go_on,
    eras_have_one_owner, eras_never_fall, last_view_is_there, later_epochs, lives_go_on,
    members_know_eras, next_goes_on, no_further_views, nothing_counts_at_start, owners_are_live,
    owners_were_born, row_of_counts, row_of_eras, steps_count_less, steps_keep_eras,
    steps_keep_made, up_nodes_live,
};
pub use laws::{
    events_can_come, handed_is_stepped, opening_is_cluster, plans_are_good, runs_are_clusters,
    step_keeps_clusters, up_is_member,
};
pub use link::{
    cleared_links, coming_steps, empty_links, epochs_go_on, heads_after, links_are_square,
    links_of_made, links_step, messages_come_from, nodes_step, numbers_among_some,
    numbers_at_the_end, numbers_with_head, opening_is_in_order, ordered_among_some,
    ordered_at_the_end, ordered_from_lower, ordered_without_head, put_on_links, row_of_coming,
    row_of_orders, row_of_sends, row_of_speaking, sent_are_of_epoch, sent_on_links, sizes_stay,
    some_at_the_end, some_of_fewer, some_of_the_same, some_without_head, squares_stay,
    steps_keep_order, taken_from_links,
};
pub use sound_rows::{
    no_message_is_ahead, no_message_to_itself, no_node_elsewhere, no_node_is_dropped,
    no_node_starts_alone, no_view_twice,
};
pub use view_laws::{last_view_is_whole, no_view_is_refused, views_are_numbered, views_are_whole};
