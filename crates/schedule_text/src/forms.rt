ghost use Rattle.std.specs.Prelude.{◌≡◌, ◌++◌, ◌∷◌, [], max, drop, codes};
ghost use Rattle.text_rules.specs.LineForms.{reach_of as reach_spec};
ghost use Rattle.text_rules.specs.LineForms.Piece.{Word as word_piece, Number as number_piece, Bytes as bytes_piece};
ghost use Rattle.text_rules.specs.BadLine.{front_len, header_forms, event_forms, tx_form, spaced_form};
ghost use Rattle.schedule_text.specs.Pieces.{form_of};

use crate::search::Piece::{self, Bytes, Flags, Number, Owners, Word};
use crate::search::reach_of;

/// How many bytes from the front are a front of a first line.
pub(crate) fn header_front(line: &[u8]) -> usize
    ensures { result ≡ front_len header_forms line.now }
{
    let form = [
        Word(b"pcl 1"),
        Word(b" "),
        Number(0, 65_536),
        Word(b" "),
        Number(0, 65_536),
        Word(b" "),
        Number(0, 65_536),
        Word(b" "),
        Number(0, 65_536),
    ];
    front_or(&form, line, 0)
}

/// How many bytes from the front are a front of the line of an event.
pub(crate) fn event_front(line: &[u8]) -> usize
    ensures { result ≡ front_len event_forms line.now }
{
    let front = environment_front(line);
    let front = node_page_front(b"flush ", line, front);
    let front = node_page_front(b"evict ", line, front);
    let front = deliver_front(line, front);
    let front = tx_front(b"abort ", line, front);
    let front = tx_front(b"commit ", line, front);
    let front = write_front(line, front);
    let front = read_front(line, front);
    node_front(b"begin ", line, front)
}

/// The same for the events of a whole node and of the environment.
fn environment_front(line: &[u8]) -> usize
    ensures { result ≡ front_len (drop 8 event_forms) line.now }
{
    let front = node_front(b"cut ", line, 0);
    let front = arm_front(line, front);
    let front = front_or(&[Word(b"reopen")], line, front);
    let front = node_front(b"install ", line, front);
    let front = front_or(&[Word(b"view "), Flags, Word(b" "), Owners], line, front);
    node_front(b"crash ", line, front)
}

/// How far the line follows the form, or what others reach where that is more.
fn front_or(form: &[Piece], line: &[u8], others: usize) -> usize
    ensures { result ≡ max (reach_spec (form_of form.now) line.now).count others }
{
    reach_of(form, line).count().max(others)
}

/// How far the line follows a word and a node.
fn node_front(word: &[u8], line: &[u8], others: usize) -> usize
    ensures { result ≡ max (reach_spec (word_piece word.now ∷ number_piece 0 15 ∷ []) line.now).count others }
{
    front_or(&[Word(word), Number(0, 15)], line, others)
}

/// How far the line follows a word, a node and a page.
fn node_page_front(word: &[u8], line: &[u8], others: usize) -> usize
    ensures { result ≡ max (reach_spec (word_piece word.now ∷ number_piece 0 15 ∷ spaced_form 0 65535) line.now).count others }
{
    let form = [Word(word), Number(0, 15), Word(b" "), Number(0, 65_535)];
    front_or(&form, line, others)
}

/// How far the line follows that of a delivery.
fn deliver_front(line: &[u8], others: usize) -> usize
    ensures { result ≡ max (reach_spec (word_piece (codes "deliver ") ∷ number_piece 0 15 ∷ spaced_form 0 15) line.now).count others }
{
    let form = [Word(b"deliver "), Number(0, 15), Word(b" "), Number(0, 15)];
    front_or(&form, line, others)
}

/// How far the line follows a word and a transaction.
fn tx_front(word: &[u8], line: &[u8], others: usize) -> usize
    ensures { result ≡ max (reach_spec (word_piece word.now ∷ tx_form) line.now).count others }
{
    let form = [
        Word(word),
        Number(0, 15),
        Word(b"."),
        Number(1, u32::MAX),
        Word(b"."),
        Number(1, u32::MAX),
    ];
    front_or(&form, line, others)
}

/// How far the line follows that of a read.
fn read_front(line: &[u8], others: usize) -> usize
    ensures { result ≡ max (reach_spec (word_piece (codes "read ") ∷ tx_form ++ spaced_form 0 65535) line.now).count others }
{
    let form = [
        Word(b"read "),
        Number(0, 15),
        Word(b"."),
        Number(1, u32::MAX),
        Word(b"."),
        Number(1, u32::MAX),
        Word(b" "),
        Number(0, 65_535),
    ];
    front_or(&form, line, others)
}

/// How far the line follows that of a write.
fn write_front(line: &[u8], others: usize) -> usize
    ensures { result ≡ max (reach_spec (word_piece (codes "write ") ∷ tx_form ++ spaced_form 0 65535 ++ spaced_form 0 4095 ++ word_piece (codes " ") ∷ bytes_piece ∷ []) line.now).count others }
{
    let form = [
        Word(b"write "),
        Number(0, 15),
        Word(b"."),
        Number(1, u32::MAX),
        Word(b"."),
        Number(1, u32::MAX),
        Word(b" "),
        Number(0, 65_535),
        Word(b" "),
        Number(0, 4_095),
        Word(b" "),
        Bytes,
    ];
    front_or(&form, line, others)
}

/// How far the line follows that of an arming.
fn arm_front(line: &[u8], others: usize) -> usize
    ensures { result ≡ max (reach_spec (word_piece (codes "arm ") ∷ number_piece 0 15 ∷ spaced_form 1 4294967295 ++ spaced_form 0 4294967295) line.now).count others }
{
    let form = [
        Word(b"arm "),
        Number(0, 15),
        Word(b" "),
        Number(1, u32::MAX),
        Word(b" "),
        Number(0, u32::MAX),
    ];
    front_or(&form, line, others)
}
