//! Laws of links: what stands on each link after each change and each step, and which of it comes to a page.
//!
//! A link is a list, first in, first out. The messages of a page that come on a link are those that speak of the
//! page and count at their receiver (`specs/Coming.antt`). Each law is the clause of a function that does nothing.

mod link_rows;
mod links;
mod orders;
mod steps;

pub use link_rows::{row_of_coming, row_of_orders, row_of_sends, row_of_speaking};
pub use links::{
    cleared_links, empty_links, heads_after, links_are_square, put_on_links, sent_on_links,
    squares_stay, taken_from_links,
};
pub use orders::{
    numbers_among_some, numbers_at_the_end, numbers_with_head, ordered_among_some,
    ordered_at_the_end, ordered_from_lower, ordered_without_head, some_at_the_end, some_of_fewer,
    some_of_the_same, some_without_head,
};
pub use steps::{
    coming_steps, epochs_go_on, links_of_made, links_step, messages_come_from, nodes_step,
    opening_is_in_order, sent_are_of_epoch, sizes_stay, steps_keep_order,
};
