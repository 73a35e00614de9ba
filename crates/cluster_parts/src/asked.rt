ghost use Rattle.std.specs.Prelude.{◌≡◌, not, IfOk};
ghost use Rattle.listing_laws.specs.Lists.{lists_by};
ghost use Rattle.cluster_rules.specs.ClusterStep.{is_taken};
ghost use Rattle.node_parts.specs.Events.{event_of};
ghost use Rattle.cluster_parts.specs.Events.{IsAsked, IsPlain};

use node_parts::NodeEvent;
use pcl_base::{Body, Config, Event, NoMemory, NodeNo, Reply};

/// The node of an event that this gets as it is, and what it is asked: of a transaction its home, and else
/// the named node. `NoMemory` where there is none for the bytes of a write.
pub fn asked_of(event: &Event) -> Result<(NodeNo, NodeEvent), NoMemory>
    requires { IsAsked event.now }
    ensures { IfOk result (λ x. IsPlain event.now x.0 (event_of x.1)) }
{
    match event {
        Event::Begin { node } => Ok((*node, NodeEvent::Begin)),
        Event::Read { tx, page } => {
            let (tx, page) = (*tx, *page);
            Ok((tx.node, NodeEvent::Read { tx, page }))
        }
        Event::Write {
            tx,
            page,
            place,
            bytes,
        } => {
            let bytes = bytes.copy()?;
            let (tx, page, place) = (*tx, *page, *place);
            Ok((
                tx.node,
                NodeEvent::Write {
                    tx,
                    page,
                    place,
                    bytes,
                },
            ))
        }
        Event::Commit { tx } => Ok((tx.node, NodeEvent::Commit { tx: *tx })),
        Event::Abort { tx } => Ok((tx.node, NodeEvent::Abort { tx: *tx })),
        Event::Evict { node, page } => Ok((*node, NodeEvent::Evict { page: *page })),
        Event::Flush { node, page } => Ok((*node, NodeEvent::Flush { page: *page })),
        Event::Cut { node } => Ok((*node, NodeEvent::Cut)),
        _ => unreachable!(),
    }
}

/// How many messages with lists a step on an event sends at most: a report for each partition as a view is
/// installed, and one answer to a revocation. It takes no memory.
pub fn lists_for(config: &Config, asked: &NodeEvent) -> u32
    ensures { result ≡ lists_by config.now (event_of asked.now) }
{
    match asked {
        NodeEvent::Install { .. } => config.nodes(),
        NodeEvent::Deliver { message, .. } => match message.body {
            Body::Revoke { .. } => 1,
            _ => 0,
        },
        _ => 0,
    }
}

/// Whether a message stays on its link, by the replies to its delivery: it was held, or refused. It takes no
/// memory.
pub fn stays(replies: &[Reply]) -> bool
    ensures { result ≡ not (is_taken replies.now) }
{
    match replies.first() {
        Some(Reply::Held) => true,
        Some(Reply::Refused { .. }) => true,
        _ => false,
    }
}
