ghost use Rattle.std.specs.Prelude.{◌≡◌, ◌<◌, ◌+◌, ◌==◌, IfSome, ◌&&◌, nat_le, map, length, string_bytes};
ghost use Rattle.std.specs.Cmp.Lexicographic.{pointwise};
ghost use Rattle.std.specs.Option.{option_map};
ghost use Rattle.std.specs.List.{list_all};
ghost use Rattle.std.specs.Char.{is_ascii_digit};
ghost use Rattle.text_rules.specs.ReadLine.{where_true, is_numeral as is_numeral_spec};
ghost use Rattle.pcl_cli.specs.MakeWords.{word_at, number_of_word, is_plain as is_plain_spec, is_make as is_make_spec, job_of as job_spec, numbers_of as numbers_spec, sizes_at as sizes_spec};
ghost use Rattle.pcl_cli.specs.NodeWords.{is_node as is_node_spec, node_job_of as node_job_spec, node_numbers_of as node_numbers_spec};

use pcl_base::{Config, NodeNo};

/// A schedule that is asked for.
#[derive(Clone, Copy)]
pub(crate) struct Job {
    pub config: Config,
    pub seed: u32,
    /// The lines behind the header.
    pub lines: u32,
}

/// A node that is asked for.
#[derive(Clone, Copy)]
pub(crate) struct NodeJob {
    pub config: Config,
    /// The number of the node, below N.
    pub me: NodeNo,
}

/// The schedule that the words `make SEED LINES NODES PAGES SIZE FRAMES` ask for. None where the
/// words are not of this form, or a number is out of its limits.
pub(crate) fn job_of(words: &Vec<String>) -> Option<Job>
    ensures { option_map (λ j. record { sizes = j.config; seed = j.seed; lines = j.lines }) result ≡ job_spec (map (λ w. string_bytes w) words.now.items) }
{
    if is_make(words) {
        return numbers_of(words);
    }
    None
}

/// Whether the words are seven and the first of them is `make`.
fn is_make(words: &Vec<String>) -> bool
    ensures { result ≡ is_make_spec (map (λ w. string_bytes w) words.now.items) }
{
    words.len() == 7 && is_word(words, 0, b"make")
}

/// Whether the word at a place is this one.
fn is_word(words: &Vec<String>, place: usize, word: &[u8]) -> bool
    requires { place < length words.now.items }
    ensures { result ≡ pointwise ◌==◌ (word_at (map (λ w. string_bytes w) words.now.items) place) word.now }
{
    words[place].as_bytes() == word
}

/// The numbers behind the word `make`.
fn numbers_of(words: &Vec<String>) -> Option<Job>
    requires { length words.now.items ≡ 7 }
    ensures { option_map (λ j. record { sizes = j.config; seed = j.seed; lines = j.lines }) result ≡ numbers_spec (map (λ w. string_bytes w) words.now.items) }
{
    let seed = number_at(words, 1, 0, 65_535)?;
    let lines = number_at(words, 2, 1, 199_999)?;
    let config = sizes_at(words, 3)?;
    Some(Job {
        config,
        seed,
        lines,
    })
}

/// The node that the words `node NODE NODES PAGES SIZE FRAMES` ask for. None where the words are not
/// of this form, or a number is out of its limits.
pub(crate) fn node_job_of(words: &Vec<String>) -> Option<NodeJob>
    ensures job { option_map (λ j. record { me = j.me; sizes = j.config }) result ≡ node_job_spec (map (λ w. string_bytes w) words.now.items) }
    ensures me { IfSome result (λ j. j.me < j.config.nodes) }
{
    if is_node(words) {
        return node_numbers_of(words);
    }
    None
}

/// Whether the words are six and the first of them is `node`.
fn is_node(words: &Vec<String>) -> bool
    ensures { result ≡ is_node_spec (map (λ w. string_bytes w) words.now.items) }
{
    words.len() == 6 && is_word(words, 0, b"node")
}

/// The numbers behind the word `node`.
fn node_numbers_of(words: &Vec<String>) -> Option<NodeJob>
    requires { length words.now.items ≡ 6 }
    ensures job { option_map (λ j. record { me = j.me; sizes = j.config }) result ≡ node_numbers_spec (map (λ w. string_bytes w) words.now.items) }
    ensures me { IfSome result (λ j. j.me < j.config.nodes) }
{
    let node = number_at(words, 1, 0, 15)?;
    let config = sizes_at(words, 2)?;
    if node < config.nodes() {
        return Some(NodeJob {
            config,
            me: node as u8,
        });
    }
    None
}

/// The configuration that the four words from a place on write.
fn sizes_at(words: &Vec<String>, place: usize) -> Option<Config>
    requires { place + 3 < length words.now.items }
    ensures { result ≡ sizes_spec (map (λ w. string_bytes w) words.now.items) place }
{
    let nodes = number_at(words, place, 0, 65_536)?;
    let pages = number_at(words, place + 1, 0, 65_536)?;
    let size = number_at(words, place + 2, 0, 65_536)?;
    let frames = number_at(words, place + 3, 0, 65_536)?;
    Config::new(nodes, pages, size, frames).ok()
}

/// The number that the word at a place writes, within two limits.
fn number_at(words: &Vec<String>, place: usize, low: u32, high: u32) -> Option<u32>
    requires { place < length words.now.items }
    ensures { result ≡ number_of_word low high (word_at (map (λ w. string_bytes w) words.now.items) place) }
{
    number_of(words[place].as_str(), low, high)
}

/// The number that a word writes, within two limits.
fn number_of(word: &str, low: u32, high: u32) -> Option<u32>
    ensures { result ≡ number_of_word low high word.now }
{
    if !is_plain(word.as_bytes()) {
        return None;
    }
    match word.parse::<u32>() {
        Ok(value) => within(value, low, high),
        Err(_) => None,
    }
}

/// A number, where it is within two limits.
fn within(value: u32, low: u32, high: u32) -> Option<u32>
    ensures { result ≡ where_true (nat_le low value && nat_le value high) value }
{
    if low <= value && value <= high {
        return Some(value);
    }
    None
}

/// Whether there are one to ten digits and no leading zero.
fn is_plain(word: &[u8]) -> bool
    ensures { result ≡ is_plain_spec word.now }
{
    are_digits(word) && is_numeral(word)
}

/// Whether each byte is a digit.
fn are_digits(word: &[u8]) -> bool
    ensures { result ≡ list_all is_ascii_digit word.now }
{
    word.iter().all(|b| b.is_ascii_digit())
}

/// Whether there are one to ten bytes, and the first is a zero only where it is the only one.
fn is_numeral(word: &[u8]) -> bool
    ensures { result ≡ is_numeral_spec word.now }
{
    !word.is_empty() && word.len() <= 10 && (word.len() == 1 || word[0] != b'0')
}
