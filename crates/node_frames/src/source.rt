ghost use Rattle.std.specs.Prelude.{◌≡◌, ℕ, ◌+◌, ◌-◌, ◌<◌, ◌≤◌, ◌++◌, [], length, take, drop, OnOk, IfOk, IfErr, MatchResult};
ghost use Rattle.std.specs.Io.KnownBytes.{ReadConsumes};
ghost use Rattle.pcl_base.specs.Faults.{HasCause};
ghost use Rattle.node_frames.specs.Front.{Filled, HeadTold, LengthRead, BodyRead, FrontRead, ByteRead};

use crate::fault::{FrameReason, InputFault};
use pcl_base::{Failed, Source};

/// The greatest length of a frame that is read, in bytes.
const MOST_LENGTH: u32 = 134_217_728;

/// The most bytes that are asked of the source at once.
const PIECE: usize = 4_096;

/// Reads at most `want` bytes into the front of a piece.
fn read_piece<I: Source>(input: &mut I, piece: &mut [u8], want: usize) -> Result<usize, Failed>
    requires some { 0 < want }
    requires room { want ≤ length piece.old }
    ensures most { IfOk result (λ n. n ≤ want) }
    ensures bytes { ReadConsumes (I.left input.old) (I.left input.new) result piece.new }
    ensures len { length piece.new ≡ length piece.old }
    ensures cause { HasCause (I.faults input.old) (I.faults input.new) result }
{
    input.read(&mut piece[..want])
}

/// Reads bytes behind those that are there, until there are `count` or the input ends. The memory of
/// a piece is taken before it is read, so no byte is lost for want of it.
fn fill<I: Source>(input: &mut I, bytes: &mut Vec<u8>, count: usize) -> Result<(), InputFault>
    requires { length bytes.old.items ≤ count }
    ensures { Filled (I.left input.old) (I.left input.new) (I.faults input.old) (I.faults input.new) bytes.old.items bytes.new.items count result }
{
    let mut piece = [0u8; PIECE];
    while bytes.len() < count {
        let want = (count - bytes.len()).min(PIECE);
        if bytes.reserve(want).is_err() {
            return Err(InputFault::NoMemory);
        }
        match read_piece(input, &mut piece, want) {
            Err(_) => return Err(InputFault::Source),
            Ok(0) => return Ok(()),
            Ok(got) => bytes.extend_from_slice(&piece[..got]).unwrap(),
        }
    }
    Ok(())
}

/// The length that the first bytes of a frame are, where there are four of them, or none where
/// there is no byte.
fn length_of(head: &[u8]) -> Result<Option<u32>, InputFault>
    requires { length head.now ≤ 4 }
    ensures { HeadTold head.now result }
{
    if head.is_empty() {
        return Ok(None);
    }
    let Some((front, _rest)) = head.split_first_chunk::<4>() else {
        return Err(InputFault::Bad {
            place: 1 + head.len(),
            reason: FrameReason::Cut,
        });
    };
    let length = u32::from_be_bytes([front[0], front[1], front[2], front[3]]);
    if length < 1 || MOST_LENGTH < length {
        return Err(InputFault::Bad {
            place: 1,
            reason: FrameReason::Length,
        });
    }
    Ok(Some(length))
}

/// Reads the length of the next frame, or none at the end of the input. `head` is empty before.
fn read_length<I: Source>(input: &mut I, head: &mut Vec<u8>) -> Result<Option<u32>, InputFault>
    requires { head.old.items ≡ [] }
    ensures read { LengthRead (I.left input.old) (I.left input.new) (I.faults input.old) (I.faults input.new) result }
    ensures few { OnOk result (length head.new.items ≤ 4) }
{
    match fill(input, head, 4) {
        Err(fault) => Err(fault),
        Ok(()) => length_of(head.as_slice()),
    }
}

/// Reads the body of a frame of a length. `body` is empty before.
fn read_body<I: Source>(input: &mut I, body: &mut Vec<u8>, length: u32) -> Result<(), InputFault>
    requires empty { body.old.items ≡ [] }
    requires most { length ≤ 134_217_728 }
    ensures { BodyRead (I.left input.old) (I.left input.new) (I.faults input.old) (I.faults input.new) body.new.items length result }
{
    match fill(input, body, length as usize) {
        Err(fault) => Err(fault),
        Ok(()) => {
            if body.len() < length as usize {
                return Err(InputFault::Bad {
                    place: 5 + body.len(),
                    reason: FrameReason::Cut,
                });
            }
            Ok(())
        }
    }
}

/// Reads the next frame of the input: its body, a kind and a payload, takes the place of what `body`
/// held. It is false at the end of the input. No byte behind the frame is read.
///
/// The length is judged as soon as its four bytes are read: [`InputFault::Bad`] comes where it isn't
/// 1 to 134,217,728, or where the input ends within the frame (docs/formats.md, bad frames).
/// [`InputFault::Source`] comes where the source failed and [`InputFault::NoMemory`] where there is
/// none for what comes next, both only where the bytes that were read decide nothing yet. After a
/// fault the input stands behind those bytes, and what `body` holds is not to be used.
pub fn read_frame<I: Source>(input: &mut I, body: &mut Vec<u8>) -> Result<bool, InputFault>
    ensures read { FrontRead (I.left input.old) (I.left input.new) (I.faults input.old) (I.faults input.new) body.new.items result }
    ensures small { OnOk result (length body.new.items ≤ 134_217_728) }
{
    body.clear();
    match read_length(input, body) {
        Err(fault) => Err(fault),
        Ok(None) => Ok(false),
        Ok(Some(length)) => {
            body.clear();
            match read_body(input, body, length) {
                Err(fault) => Err(fault),
                Ok(()) => Ok(true),
            }
        }
    }
}

/// Whether a further byte of the input comes, which is read.
///
/// It answers [`Failed`] where the source failed.
pub fn has_more<I: Source>(input: &mut I) -> Result<bool, Failed>
    ensures read { ByteRead (I.left input.old) (I.left input.new) result }
    ensures cause { HasCause (I.faults input.old) (I.faults input.new) result }
{
    let mut byte = [0u8; 1];
    match input.read(&mut byte) {
        Err(failed) => Err(failed),
        Ok(0) => Ok(false),
        Ok(_) => Ok(true),
    }
}
