ghost use Rattle.std.specs.Prelude.{◌≡◌, is_some};
ghost use Rattle.std.specs.Option.{option_map};
ghost use Rattle.frame_rules.specs.Frames.{asked_by, step_of};
ghost use Rattle.node_frames.specs.Seen.{frame_in};

use authority_map::View;
use pcl_base::{Event, Message, NodeNo};

/// A frame that a node reads.
#[derive(Debug, Drop)]
pub enum Frame {
    /// A line of the schedule grammar: an event that is a step of a node.
    Line { event: Event },
    /// A message from another node.
    Message { from: NodeNo, message: Message },
    /// A view to install.
    View { view: View },
}

impl Frame {
    /// Whether the frame asks for a step of node `me`. It doesn't where its line names another node,
    /// which is refused with `NoNode` and changes nothing.
    pub fn is_step_of(&self, me: NodeNo) -> bool
        ensures { result ≡ is_some (step_of me (frame_in self.now)) }
    {
        match self {
            Frame::Line { event } => node_of(event) == Some(me),
            Frame::Message { .. } => true,
            Frame::View { .. } => true,
        }
    }
}

/// The node that a line names, or none where the event is no step of a node.
pub(crate) fn node_of(event: &Event) -> Option<NodeNo>
    ensures { result ≡ option_map (λ asked. asked.0) (asked_by event.now) }
{
    match event {
        Event::Begin { node } => Some(*node),
        Event::Read { tx, .. } => Some(tx.node),
        Event::Write { tx, .. } => Some(tx.node),
        Event::Commit { tx } => Some(tx.node),
        Event::Abort { tx } => Some(tx.node),
        Event::Evict { node, .. } => Some(*node),
        Event::Flush { node, .. } => Some(*node),
        Event::Cut { node } => Some(*node),
        _ => None,
    }
}
