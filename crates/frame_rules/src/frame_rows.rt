//! Rows of single frames.

ghost use Rattle.std.specs.Prelude.{◌≡◌, ◌++◌, ◌∷◌, [], map, length, codes, true, Ok, Err, Some, None};
ghost use Rattle.pcl_base.specs.declared.reply.Reason.TheVariants as reason;
ghost use Rattle.pcl_base.specs.declared.reply.Reply.TheVariants as reply;
ghost use Rattle.pcl_base.specs.declared.event.Event.TheVariants as line;
ghost use Rattle.pcl_base.specs.declared.trace.Call.TheVariants as call;
ghost use Rattle.pcl_base.specs.declared.message.Body.TheVariants.{Revoke};
ghost use Rattle.text_rules.specs.ByteRows.{bytes_of};
ghost use Rattle.frame_rules.specs.Frames.{frame_bytes, step_of, most_length};
ghost use Rattle.frame_rules.specs.Frames.Frame.{LineFrame, ViewFrame};
ghost use Rattle.frame_rules.specs.ReadFrame.{length_front, bad_frame, Front};
ghost use Rattle.frame_rules.specs.WrittenFrames.{replies_frame, sent_frame, end_frame, other_node_frame, bad_frame_text, differs_text, long_text, halted_text};
ghost use Rattle.frame_rules.specs.FrameRows.{good_frames, bad_fronts, bad_lines, bad_messages, bad_views, read_frame, own_tx, other_tx, lost};
ghost use Rattle.frame_rules.specs.ReadFrame.Reason.{BadLength, NoKind};
ghost use Rattle.node_rules.specs.NodeState.NodeEvent.{Begin, Read, Install};

/// Frames that are read, both ways.
pub fn row_of_good_frames()
    ensures bytes { map (λ s. frame_bytes s.frame) good_frames ≡ map (λ s. bytes_of s.text) good_frames }
    ensures read { map (λ s. read_frame s.text) good_frames ≡ map (λ s. Ok s.frame) good_frames }
{}

/// Bad frames, each with its place and its reason.
pub fn row_of_bad_frames()
    ensures fronts { map (λ b. read_frame b.text) bad_fronts ≡ map (λ b. Err (bad_frame b.place b.reason)) bad_fronts }
    ensures lines { map (λ b. read_frame b.text) bad_lines ≡ map (λ b. Err (bad_frame b.place b.reason)) bad_lines }
    ensures messages { map (λ b. read_frame b.text) bad_messages ≡ map (λ b. Err (bad_frame b.place b.reason)) bad_messages }
    ensures views { map (λ b. read_frame b.text) bad_views ≡ map (λ b. Err (bad_frame b.place b.reason)) bad_views }
{}

/// What frames ask of node 0.
pub fn row_of_steps()
    ensures own { step_of 0 (LineFrame (line.Read own_tx 1)) ≡ Some (Read own_tx 1) }
    ensures other_tx { step_of 0 (LineFrame (line.Commit other_tx)) ≡ None }
    ensures other_node { step_of 0 (LineFrame (line.Begin 1)) ≡ None }
    ensures at_other_node { step_of 1 (LineFrame (line.Begin 1)) ≡ Some Begin }
    ensures view { step_of 0 (ViewFrame lost) ≡ Some (Install lost) }
{}

/// Frames that are written.
pub fn row_of_written_frames()
    ensures replies { replies_frame (reply.Installed 1 ∷ reply.Serving 0 ∷ []) ≡ bytes_of (codes "0000001752696e7374616c6c656420310a73657276696e6720300a") }
    ensures none { replies_frame [] ≡ bytes_of (codes "0000000152") }
    ensures other_node { other_node_frame ≡ bytes_of (codes "0000001252726566757365642031204e6f4e6f64650a") }
    ensures sent { sent_frame (record { to = 1; message = record { epoch = 1; body = Revoke 2 } }) ≡ bytes_of (codes "0000000b4d01000000010400000002") }
    ensures bad { end_frame (bad_frame_text 1 (bad_frame 5 NoKind)) ≡ bytes_of (codes "0000000e4562616420312035206b696e640a") }
    ensures halted { end_frame (halted_text (record { call = call.Force; kept = None })) ≡ bytes_of (codes "0000000e4568616c74656420666f7263650a") }
    ensures failed_read { end_frame (halted_text (record { call = call.Log; kept = None })) ≡ bytes_of (codes "0000000c4568616c746564206c6f670a") }
    ensures kept { halted_text (record { call = call.Read; kept = Some own_tx }) ≡ codes "halted read kept 0.1.1\n" }
    ensures differs { end_frame (differs_text 1 1 0) ≡ bytes_of (codes "0000000f45646966666572732031203120300a") }
    ensures long { end_frame (long_text 2) ≡ bytes_of (codes "00000008456c6f6e6720320a") }
{}
