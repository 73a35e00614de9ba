ghost use Rattle.std.specs.Prelude.{◌≡◌, ◌≤◌, length, take, true};
ghost use Rattle.std.specs.List.{prefix_len};
ghost use Rattle.std.specs.Str.Parse.{AllDigits};
ghost use Rattle.text_rules.specs.LineForms.{shared as shared_spec, longest as longest_spec, is_numeral as is_numeral_spec, reach_of_piece as piece_spec, reach_of_number as number_spec, reach_of_bytes as bytes_spec, reach_of_flags as flags_spec, reach_of_more as more_spec, reach_of_owners as owners_spec};
ghost use Rattle.text_rules.specs.LineForms.Piece.{Word};
ghost use Rattle.schedule_text.specs.Pieces.{reach_of_list as list_spec};
ghost use Rattle.text_rules.specs.ReadLine.{is_hex_digit as is_hex_digit_spec};

use crate::bytes::is_hex_digit;
use crate::fields::{digits_len, is_numeral, value_of};
use crate::search::Reach;
use crate::views::flags_len;

/// How far the bytes follow a word.
pub(crate) fn reach_of_word(word: &[u8], bytes: &[u8]) -> Reach
    ensures value { result ≡ piece_spec (Word word.now) bytes.now }
    ensures most { result.count ≤ length bytes.now }
{
    let count = shared(word, bytes);
    Reach::new(count, count == word.len())
}

/// How many bytes from the front two lists share.
fn shared(word: &[u8], bytes: &[u8]) -> usize
    ensures value { result ≡ shared_spec word.now bytes.now }
    ensures most { result ≤ length bytes.now }
{
    let mut count = 0;
    while count < word.len() && count < bytes.len() && word[count] == bytes[count] {
        count += 1;
    }
    count
}

/// How far the bytes follow a number from a limit of 0 or 1 up to another one.
pub(crate) fn reach_of_number(bytes: &[u8], low: u32, high: u32) -> Reach
    ensures value { result ≡ number_spec low high bytes.now }
    ensures most { result.count ≤ length bytes.now }
{
    let count = longest(bytes, digits_len(bytes).min(20), high);
    if value_of(&bytes[..count]) < low as u64 {
        return Reach::new(0, false);
    }
    Reach::new(count, 1 <= count)
}

/// The longest front of at most so many digits that is a number up to a limit, 0 where none is.
fn longest(bytes: &[u8], most: usize, high: u32) -> usize
    requires within { most ≤ length bytes.now }
    requires digits { AllDigits 10 (take most bytes.now) }
    ensures value { result ≡ longest_spec high most bytes.now }
    ensures most { result ≤ most }
    ensures few { result ≤ 10 }
{
    let mut count = most;
    while 0 < count && !is_numeral_up_to(&bytes[..count], high) {
        count -= 1;
    }
    count
}

/// Whether these digits are a number up to a limit, with no zero at the front of others.
fn is_numeral_up_to(digits: &[u8], high: u32) -> bool
    requires some { 1 ≤ length digits.now }
    requires all { AllDigits 10 digits.now }
    ensures value { result ≡ is_numeral_spec high digits.now }
    ensures few { result ≡ true → length digits.now ≤ 10 }
{
    is_numeral(digits) && value_of(digits) <= high as u64
}

/// How far they follow the bytes of a write: `-` or pairs of digits.
pub(crate) fn reach_of_bytes(bytes: &[u8]) -> Reach
    ensures value { result ≡ bytes_spec bytes.now }
    ensures most { result.count ≤ length bytes.now }
{
    if !bytes.is_empty() && bytes[0] == b'-' {
        return Reach::new(1, true);
    }
    let count = hex_len(bytes).min(8_192);
    Reach::new(count, 1 <= count && count % 2 == 0)
}

/// How many digits of bytes, in lower case, the bytes begin with.
fn hex_len(bytes: &[u8]) -> usize
    ensures value { result ≡ prefix_len is_hex_digit_spec bytes.now }
    ensures most { result ≤ length bytes.now }
{
    bytes.iter().take_while(|b| is_hex_digit(**b)).count()
}

/// How far they follow 1 to 16 flags.
pub(crate) fn reach_of_flags(bytes: &[u8]) -> Reach
    ensures value { result ≡ flags_spec bytes.now }
    ensures most { result.count ≤ length bytes.now }
{
    let count = flags_len(bytes).min(16);
    Reach::new(count, 1 <= count)
}

/// How far they follow 1 to 16 owners.
pub(crate) fn reach_of_owners(bytes: &[u8]) -> Reach
    ensures value { result ≡ owners_spec bytes.now }
    ensures most { result.count ≤ length bytes.now }
{
    reach_of_list(bytes, 15)
}

/// How far they follow an owner and up to so many further ones.
fn reach_of_list(bytes: &[u8], further: u32) -> Reach
    ensures value { result ≡ list_spec further bytes.now }
    ensures most { result.count ≤ length bytes.now }
{
    let first = reach_of_number(bytes, 0, 15);
    if !first.is_whole() {
        return first;
    }
    reach_of_more(&bytes[first.count()..], further).behind(first.count())
}

/// How far they follow up to so many further owners, each after a comma.
fn reach_of_more(bytes: &[u8], owners: u32) -> Reach
    ensures value { result ≡ more_spec owners bytes.now }
    ensures most { result.count ≤ length bytes.now }
{
    if owners == 0 || bytes.is_empty() || bytes[0] != b',' {
        return Reach::new(0, true);
    }
    let owner = reach_of_number(&bytes[1..], 0, 15);
    if !owner.is_whole() {
        return owner.behind(1);
    }
    let count = 1 + owner.count();
    reach_of_more(&bytes[count..], owners - 1).behind(count)
}
