ghost use Rattle.std.specs.Prelude.{◌≡◌, ◌≤◌, length, IfSome};
ghost use Rattle.std.specs.Option.{option_copied};
ghost use Rattle.std.specs.List.{prefix_len};
ghost use Rattle.std.specs.Char.{is_ascii_digit};
ghost use Rattle.std.specs.Str.Parse.{AllDigits, digits_value};
ghost use Rattle.text_rules.specs.ReadLine.{number_at as number_spec, number_of as number_of_spec, is_numeral as is_numeral_spec, after_word as after_word_spec, spaced_at as spaced_spec, pointed_at as pointed_spec, tx_at as tx_spec};
ghost use Rattle.schedule_text.specs.Seen.{field};

use pcl_base::TxId;

/// The bytes after a word, where the bytes begin with it.
pub(crate) fn after_word<'a>(bytes: &'a [u8], word: &[u8]) -> Option<&'a [u8]>
    ensures value { option_copied result ≡ after_word_spec word.now bytes.now }
{
    bytes.strip_prefix(word)
}

/// The number at the front, within two limits, and the bytes after it.
#[tactic(auto, unfolding(text_rules::specs::ReadLine::number_at))]
pub(crate) fn number_at(bytes: &[u8], low: u32, high: u32) -> Option<(u32, &[u8])>
    ensures value { field result ≡ number_spec low high bytes.now }
    ensures most { IfSome result (λ x. x.0 ≤ high) }
{
    let (digits, rest) = bytes.split_at(digits_len(bytes));
    let value = number_of(digits, low, high)?;
    Some((value, rest))
}

/// A number after a space.
#[tactic(auto, unfolding(text_rules::specs::ReadLine::spaced_at))]
pub(crate) fn spaced_at(bytes: &[u8], low: u32, high: u32) -> Option<(u32, &[u8])>
    ensures value { field result ≡ spaced_spec low high bytes.now }
    ensures most { IfSome result (λ x. x.0 ≤ high) }
{
    number_at(after_word(bytes, b" ")?, low, high)
}

/// A transaction's name, and the bytes after it.
#[tactic(auto, unfolding(text_rules::specs::ReadLine::tx_at))]
pub(crate) fn tx_at(bytes: &[u8]) -> Option<(TxId, &[u8])>
    ensures value { field result ≡ tx_spec bytes.now }
{
    let (node, rest) = number_at(bytes, 0, 15)?;
    let (born, rest) = pointed_at(rest)?;
    let (serial, rest) = pointed_at(rest)?;
    Some((
        TxId {
            node: node as u8,
            born,
            serial,
        },
        rest,
    ))
}

/// A birth or a serial after a point.
#[tactic(auto, unfolding(text_rules::specs::ReadLine::pointed_at))]
fn pointed_at(bytes: &[u8]) -> Option<(u32, &[u8])>
    ensures value { field result ≡ pointed_spec bytes.now }
{
    number_at(after_word(bytes, b".")?, 1, u32::MAX)
}

/// How many digits the bytes begin with.
pub(crate) fn digits_len(bytes: &[u8]) -> usize
    ensures value { result ≡ prefix_len is_ascii_digit bytes.now }
    ensures most { result ≤ length bytes.now }
{
    bytes.iter().take_while(|b| b.is_ascii_digit()).count()
}

/// The number that digits write, where it is one without leading zeros and within the limits.
fn number_of(digits: &[u8], low: u32, high: u32) -> Option<u32>
    requires { AllDigits 10 digits.now }
    ensures value { result ≡ number_of_spec low high digits.now }
    ensures most { IfSome result (λ n. n ≤ high) }
{
    if !is_numeral(digits) {
        return None;
    }
    let value = value_of(digits);
    if value < low as u64 || (high as u64) < value {
        return None;
    }
    Some(value as u32)
}

/// Whether there are one to ten digits, and no leading zero.
pub(crate) fn is_numeral(digits: &[u8]) -> bool
    ensures { result ≡ is_numeral_spec digits.now }
{
    !digits.is_empty() && digits.len() <= 10 && (digits.len() == 1 || digits[0] != b'0')
}

/// The number that ten digits at most write.
pub(crate) fn value_of(digits: &[u8]) -> u64
    requires few { length digits.now ≤ 10 }
    requires all { AllDigits 10 digits.now }
    ensures { result ≡ digits_value 10 digits.now }
{
    let mut value = 0u64;
    for digit in digits {
        value = value * 10 + (*digit - b'0') as u64;
    }
    value
}
