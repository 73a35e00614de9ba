ghost use Rattle.std.specs.Prelude.{◌≡◌, ℕ, ◌+◌, ◌-◌, ◌<◌, ◌≤◌, ◌∷◌, true, length, Some, is_some, IfOk, IfErr, IfSome, IsTrue};
ghost use Rattle.std.specs.Option.{option_map};
ghost use Rattle.pcl_base.specs.Limits.{Sizes};
ghost use Rattle.text_rules.specs.BadLine.{bad_at, event_forms};
ghost use Rattle.text_rules.specs.ReadEvent.{event_of};
ghost use Rattle.text_rules.specs.ScheduleLine.{HasLine};
ghost use Rattle.text_rules.specs.FieldBytes.{whole};
ghost use Rattle.text_rules.specs.ReadMessage.{placed, decoded};
ghost use Rattle.frame_rules.specs.Frames.{body_bytes, IsFrame, asked_by, line_kind, message_kind, view_kind};
ghost use Rattle.frame_rules.specs.Frames.Frame.{MessageFrame, ViewFrame};
ghost use Rattle.frame_rules.specs.ReadFrame.{frame_of, line_frame, step_line, message_frame, sender_field, fields_frame, view_field, bad_frame};
ghost use Rattle.frame_rules.specs.ReadFrame.Reason.{InField};
ghost use Rattle.messages.specs.Reading.{refusal_in};
ghost use Rattle.node_frames.specs.Seen.{frame_in, bad_in, field_fault};

use crate::fault::{FieldFault, FrameFault, FrameReason};
use crate::fields::{Fields, ReadFault, Stopped};
use crate::frame::{Frame, node_of};
use crate::view::view;
use messages::DecodeFault;
use pcl_base::{Config, NodeNo};
use schedule_text::{LineFault, LineReason, read_line};
use std::alloc::Global;

/// The frame of a line.
fn line_of(alloc: Global, text: &[u8]) -> Result<Frame, FrameFault>
    requires { length text.now < 134_217_728 }
    ensures ok { IfOk result (λ f. line_frame (bad_at true event_forms text.now) (step_line (event_of text.now)) ≡ Ok (frame_in f)) }
    ensures err { IfErr result (λ e. IfSome (bad_in e) (λ b. line_frame (bad_at true event_forms text.now) (step_line (event_of text.now)) ≡ Err b)) }
    ensures spelt { IfOk result (λ f. body_bytes (frame_in f) ≡ line_kind ∷ text.now) }
    ensures is_frame { IfOk result (λ f. (c : Sizes) (me : ℕ) → IsFrame c me (frame_in f)) }
{
    match read_line(alloc, text) {
        Ok(event) => {
            if node_of(&event).is_some() {
                return Ok(Frame::Line { event });
            }
            Err(FrameFault::Bad {
                place: 6,
                reason: FrameReason::Line(LineReason::Byte),
            })
        }
        Err(LineFault::BadLine { column, reason }) => Err(FrameFault::Bad {
            place: 5 + column,
            reason: FrameReason::Line(reason),
        }),
        Err(LineFault::NoMemory) => Err(FrameFault::NoMemory),
    }
}

/// The fault of a message that begins at place 7 of its frame.
fn message_fault(fault: DecodeFault) -> FrameFault
    requires { IfSome (refusal_in fault) (λ r. r.place ≤ 134_217_728) }
    ensures { bad_in result ≡ option_map (λ r. bad_frame (7 + r.place) (InField r.fault)) (refusal_in fault) }
{
    match fault {
        DecodeFault::Short { place } => FrameFault::Bad {
            place: 7 + place,
            reason: FrameReason::Field(FieldFault::Short),
        },
        DecodeFault::BadKind { place } => FrameFault::Bad {
            place: 7 + place,
            reason: FrameReason::Field(FieldFault::BadKind),
        },
        DecodeFault::BadField { place } => FrameFault::Bad {
            place: 7 + place,
            reason: FrameReason::Field(FieldFault::BadField),
        },
        DecodeFault::TooLong { place } => FrameFault::Bad {
            place: 7 + place,
            reason: FrameReason::Field(FieldFault::TooLong),
        },
        DecodeFault::NoMemory => FrameFault::NoMemory,
    }
}

/// The frame of a message from a node.
fn message_from(
    alloc: Global,
    config: &Config,
    from: NodeNo,
    bytes: &[u8],
) -> Result<Frame, FrameFault>
    requires { length bytes.now < 134_217_728 }
    ensures ok { IfOk result (λ f. fields_frame 7 (MessageFrame from) (decoded config.now bytes.now) ≡ Ok (frame_in f)) }
    ensures err { IfErr result (λ e. IfSome (bad_in e) (λ b. fields_frame 7 (MessageFrame from) (decoded config.now bytes.now) ≡ Err b)) }
    ensures spelt { IfOk result (λ f. body_bytes (frame_in f) ≡ message_kind ∷ from ∷ bytes.now) }
    ensures is_frame { IfOk result (λ f. (me : ℕ) → from < config.now.nodes → ¬ (from ≡ me) → IsFrame config.now me (frame_in f)) }
{
    match messages::decode(alloc, config, bytes) {
        Ok(message) => Ok(Frame::Message { from, message }),
        Err(fault) => Err(message_fault(fault)),
    }
}

/// The frame of a message, behind its sender.
fn message_of(
    alloc: Global,
    config: &Config,
    me: NodeNo,
    payload: &[u8],
) -> Result<Frame, FrameFault>
    requires { length payload.now < 134_217_728 }
    ensures ok { IfOk result (λ f. message_frame config.now (sender_field config.now me payload.now) ≡ Ok (frame_in f)) }
    ensures err { IfErr result (λ e. IfSome (bad_in e) (λ b. message_frame config.now (sender_field config.now me payload.now) ≡ Err b)) }
    ensures spelt { IfOk result (λ f. body_bytes (frame_in f) ≡ message_kind ∷ payload.now) }
    ensures is_frame { IfOk result (λ f. IsFrame config.now me (frame_in f)) }
{
    let mut fields = Fields::of(payload);
    match fields.sender(config, me) {
        Ok(from) => message_from(alloc, config, from, fields.left()),
        Err(stopped) => Err(FrameFault::Bad {
            place: 6,
            reason: FrameReason::Field(stopped.fault),
        }),
    }
}

/// The fault of a stop among so many bytes of a view, which begins at place 6 of its frame.
fn view_fault(count: usize, stopped: Stopped) -> FrameFault
    requires { count < 134_217_728 }
    ensures { bad_in result ≡ Some (bad_frame (6 + (count - stopped.left)) (InField (field_fault stopped.fault))) }
{
    FrameFault::Bad {
        place: 6 + count.saturating_sub(stopped.left),
        reason: FrameReason::Field(stopped.fault),
    }
}

/// The frame of a view.
fn view_of(alloc: Global, config: &Config, me: NodeNo, payload: &[u8]) -> Result<Frame, FrameFault>
    requires me { me < config.now.nodes }
    requires small { length payload.now < 134_217_728 }
    ensures ok { IfOk result (λ f. fields_frame 6 ViewFrame (placed (length payload.now) (whole (view_field config.now me payload.now))) ≡ Ok (frame_in f)) }
    ensures err { IfErr result (λ e. IfSome (bad_in e) (λ b. fields_frame 6 ViewFrame (placed (length payload.now) (whole (view_field config.now me payload.now))) ≡ Err b)) }
    ensures spelt { IfOk result (λ f. body_bytes (frame_in f) ≡ view_kind ∷ payload.now) }
    ensures is_frame { IfOk result (λ f. IsFrame config.now me (frame_in f)) }
{
    let count = payload.len();
    let mut fields = Fields::of(payload);
    match view(alloc, &mut fields, config, me) {
        Ok(view) => match fields.end() {
            Ok(()) => Ok(Frame::View { view }),
            Err(stopped) => Err(view_fault(count, stopped)),
        },
        Err(ReadFault::Stopped(stopped)) => Err(view_fault(count, stopped)),
        Err(ReadFault::NoMemory) => Err(FrameFault::NoMemory),
    }
}

/// The frame to node `me` that a body is: what stands behind the length of a frame, its kind and its
/// payload, at most 134,217,728 bytes.
///
/// A body outside the grammar is [`FrameFault::Bad`] with the first reason of docs/formats.md, bad
/// frames, and its place. [`FrameFault::NoMemory`] comes where there is none for what the frame tells.
pub fn decode(alloc: Global, config: &Config, me: NodeNo, body: &[u8]) -> Result<Frame, FrameFault>
    requires me { me < config.now.nodes }
    requires small { length body.now ≤ 134_217_728 }
    ensures ok { IfOk result (λ f. frame_of config.now me body.now ≡ Ok (frame_in f)) }
    ensures err { IfErr result (λ e. IfSome (bad_in e) (λ b. frame_of config.now me body.now ≡ Err b)) }
    ensures spelt { IfOk result (λ f. body_bytes (frame_in f) ≡ body.now) }
    ensures is_frame { IfOk result (λ f. IsFrame config.now me (frame_in f)) }
{
    let Some((kind, payload)) = body.split_first() else {
        return Err(FrameFault::Bad {
            place: 5,
            reason: FrameReason::Kind,
        });
    };
    match *kind {
        b'L' => line_of(alloc, payload),
        b'M' => message_of(alloc, config, me, payload),
        b'V' => view_of(alloc, config, me, payload),
        _ => Err(FrameFault::Bad {
            place: 5,
            reason: FrameReason::Kind,
        }),
    }
}
