ghost use Rattle.std.specs.Prelude.{◌≡◌, ◌==◌, ◌&&◌, length, slice_index, IfOk};
ghost use Rattle.std.specs.List.{list_all};
ghost use Rattle.text_rules.specs.ReadLine.{bytes_of as bytes_spec, pairs_of as pairs_spec, are_digits as are_digits_spec, is_hex_digit as is_hex_digit_spec};

use hex::FromHexError;
use pcl_base::{Items, NoMemory, Page};
use std::alloc::Global;

/// Bytes as 1 to 4,096 pairs of digits in lower case, or `-` for none.
#[tactic(auto, unfolding(text_rules::specs::ReadLine::bytes_of))]
pub(crate) fn bytes_of(alloc: Global, text: &[u8]) -> Result<Option<Page>, NoMemory>
    ensures value { IfOk result (λ o. o ≡ bytes_spec text.now) }
{
    if is_none(text) {
        return Ok(Some(Items::new(alloc)));
    }
    pairs_of(alloc, text)
}

/// Whether the text is `-`.
fn is_none(text: &[u8]) -> bool
    ensures { result ≡ (length text.now == 1 && slice_index text.now 0 == 45) }
{
    text.len() == 1 && text[0] == b'-'
}

/// Bytes as 1 to 4,096 pairs of digits in lower case.
fn pairs_of(alloc: Global, text: &[u8]) -> Result<Option<Page>, NoMemory>
    ensures value { IfOk result (λ o. o ≡ pairs_spec text.now) }
{
    if !are_digits(text) {
        return Ok(None);
    }
    match hex::decode(alloc, text) {
        Ok(bytes) => Ok(Some(Items::of(bytes))),
        Err(FromHexError::OutOfMemory) => Err(NoMemory),
        Err(_) => Ok(None),
    }
}

/// Whether there are 2 to 8,192 digits and nothing else.
fn are_digits(text: &[u8]) -> bool
    ensures { result ≡ are_digits_spec text.now }
{
    2 <= text.len() && text.len() <= 8_192 && all_digits(text)
}

fn all_digits(text: &[u8]) -> bool
    ensures { result ≡ list_all is_hex_digit_spec text.now }
{
    text.iter().all(|b| is_hex_digit(*b))
}

/// Whether the byte is a digit of bytes; those in upper case are none.
pub(crate) fn is_hex_digit(byte: u8) -> bool
    ensures { result ≡ is_hex_digit_spec byte }
{
    matches!(byte, b'0'..=b'9' | b'a'..=b'f')
}
