ghost use Rattle.std.specs.Prelude.{◌≡◌, Some};
ghost use Rattle.std.specs.Option.{option_map};
ghost use Rattle.frame_rules.specs.Frames.{asked_by, own_step, step_of};
ghost use Rattle.node_frames.specs.Seen.{frame_in};
ghost use Rattle.node_parts.specs.Events.{event_of};

use node_frames::Frame;
use node_parts::NodeEvent;
use pcl_base::{Event, NodeNo};

/// The step that a frame asks of node `me`, or none where its line names another node. It takes no memory.
pub fn asked_of(me: NodeNo, frame: Frame) -> Option<NodeEvent>
    ensures { option_map event_of result ≡ step_of me (frame_in frame) }
{
    match frame {
        Frame::Line { event } => line_of(me, event),
        Frame::Message { from, message } => Some(NodeEvent::Deliver { from, message }),
        Frame::View { view } => Some(NodeEvent::Install { view }),
    }
}

/// The same of a line. A line of an event that is no step of a node asks for none.
fn line_of(me: NodeNo, event: Event) -> Option<NodeEvent>
    ensures { option_map event_of result ≡ own_step me (asked_by event) }
{
    match event {
        Event::Begin { node } => own(me, node, NodeEvent::Begin),
        Event::Read { tx, page } => own(me, tx.node, NodeEvent::Read { tx, page }),
        Event::Write {
            tx,
            page,
            place,
            bytes,
        } => own(
            me,
            tx.node,
            NodeEvent::Write {
                tx,
                page,
                place,
                bytes,
            },
        ),
        Event::Commit { tx } => own(me, tx.node, NodeEvent::Commit { tx }),
        Event::Abort { tx } => own(me, tx.node, NodeEvent::Abort { tx }),
        Event::Evict { node, page } => own(me, node, NodeEvent::Evict { page }),
        Event::Flush { node, page } => own(me, node, NodeEvent::Flush { page }),
        Event::Cut { node } => own(me, node, NodeEvent::Cut),
        _other => None,
    }
}

/// The event, where it is one of node `me`.
fn own(me: NodeNo, node: NodeNo, event: NodeEvent) -> Option<NodeEvent>
    ensures { option_map event_of result ≡ own_step me (Some (node, event_of event)) }
{
    if node == me {
        return Some(event);
    }
    None
}
