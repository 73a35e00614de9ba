ghost use Rattle.std.specs.Prelude.{◌≡◌, ◌+◌, ◌<◌, ◌≤◌, ◌^◌, length};
ghost use Rattle.text_rules.specs.LineForms.{reach_of as reach_spec, reach_of_piece as piece_spec};
ghost use Rattle.schedule_text.specs.Pieces.{piece_of, form_of};

use crate::reaches::{
    reach_of_bytes, reach_of_flags, reach_of_number, reach_of_owners, reach_of_word,
};
use std::marker::Model;

/// A piece of a line.
#[derive(Clone, Copy)]
pub(crate) enum Piece<'a> {
    /// These bytes.
    Word(&'a [u8]),
    /// A number within two limits.
    Number(u32, u32),
    /// The bytes of a write.
    Bytes,
    /// Flags of nodes.
    Flags,
    /// Owners of partitions.
    Owners,
}

/// How many bytes from the front are a front of a piece, and whether the piece may end there.
#[derive(Clone, Copy)]
pub(crate) struct Reach {
    count: usize,
    is_whole: bool,
}

impl Model for Reach {
    ghost use Rattle.text_rules.specs.LineForms.{Reach as FormReach};

    ghost Value = { FormReach };

    ghost view = { λ r. record { count = r.count; is_whole = r.is_whole } };

    ghost inverse = { λ v. record { count = v.count; is_whole = v.is_whole } };
}

impl Reach {
    ghost use Rattle.text_rules.specs.LineForms.{behind as behind_spec};

    /// So many bytes, and whether the piece may end there.
    pub(crate) fn new(count: usize, is_whole: bool) -> Reach
        ensures { result ≡ record { count = count; is_whole = is_whole } }
    {
        Reach { count, is_whole }
    }

    /// Whether the piece may end there.
    pub(crate) fn is_whole(&self) -> bool
        ensures { result ≡ self.now.is_whole }
    {
        self.is_whole
    }

    /// How many bytes.
    pub(crate) fn count(&self) -> usize
        ensures { result ≡ self.now.count }
    {
        self.count
    }

    /// The same behind some bytes.
    pub(crate) fn behind(self, bytes: usize) -> Reach
        requires { bytes + self.count < 2 ^ 63 }
        ensures { result ≡ behind_spec bytes self }
    {
        Reach {
            count: bytes + self.count,
            is_whole: self.is_whole,
        }
    }
}

/// How far the bytes follow the pieces of a form.
pub(crate) fn reach_of(form: &[Piece], bytes: &[u8]) -> Reach
    ensures value { result ≡ reach_spec (form_of form.now) bytes.now }
    ensures most { result.count ≤ length bytes.now }
{
    let mut count = 0;
    for piece in form {
        let reach = reach_of_piece(*piece, &bytes[count..]);
        count += reach.count();
        if !reach.is_whole() {
            return Reach::new(count, false);
        }
    }
    Reach::new(count, true)
}

/// How far the bytes follow a piece.
fn reach_of_piece(piece: Piece, bytes: &[u8]) -> Reach
    ensures value { result ≡ piece_spec (piece_of piece.entry) bytes.now }
    ensures most { result.count ≤ length bytes.now }
{
    match piece {
        Piece::Word(word) => reach_of_word(word, bytes),
        Piece::Number(low, high) => reach_of_number(bytes, low, high),
        Piece::Bytes => reach_of_bytes(bytes),
        Piece::Flags => reach_of_flags(bytes),
        Piece::Owners => reach_of_owners(bytes),
    }
}
