ghost use Rattle.node_frames.specs.Laws.{BodiesReadAgain, FramesReadAgain};

use messages::written_is_read_again;

/// Each frame of the grammar is read from its bytes. With the clauses of [`decode`](crate::decode) it
/// says that a body is read as a frame exactly where all of it spells that frame.
pub fn frames_are_read_again()
    ensures bodies { BodiesReadAgain }
    ensures frames { FramesReadAgain }
{
    written_is_read_again();
}
