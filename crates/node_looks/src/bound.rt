ghost use Rattle.std.specs.Prelude.{◌≡◌, ◌-◌, ◌^◌, min};
ghost use Rattle.step_laws.specs.Most.{brought, items_in, most};
ghost use Rattle.node_parts.specs.Events.{event_of};
ghost use Rattle.node_parts.specs.State.{node_of};

use node_parts::{NodeEvent, Parts};
use pcl_base::Body;

/// A bound of what a step on an event gives: the most replies, the most sends, and the most items in
/// the lists of its sends together. Where the bound is greater than the last `usize`, it is that. It takes no memory.
pub fn most(parts: &Parts, event: &NodeEvent) -> usize
    ensures { result ≡ min (most (node_of parts.now) (event_of event.now)) (2 ^ 64 - 1) }
{
    let nodes = 2 * parts.home.config().nodes() as usize + 2;
    nodes
        .saturating_add(parts.tables.listed())
        .saturating_add(parts.home.txs().wait_count())
        .saturating_add(parts.home.txs().lock_count())
        .saturating_add(parts.home.shelf().count())
        .saturating_add(brought(event))
}

/// The items in the lists of the message that an event delivers, or the last number.
fn brought(event: &NodeEvent) -> usize
    ensures { result ≡ min (brought (event_of event.now)) (2 ^ 64 - 1) }
{
    match event {
        NodeEvent::Deliver { message, .. } => items_in(&message.body),
        _ => 0,
    }
}

/// The items in the lists of a message, or the last number.
fn items_in(body: &Body) -> usize
    ensures { result ≡ min (items_in body.now) (2 ^ 64 - 1) }
{
    match body {
        Body::Return(answer) => answer.readers.len(),
        Body::Report(report) => report
            .waits
            .len()
            .saturating_add(report.locks.len())
            .saturating_add(report.rights.len()),
        _ => 0,
    }
}
