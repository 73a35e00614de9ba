ghost use Rattle.std.specs.Prelude.{◌≡◌, ◌≤◌, ◌==◌, length, map, IfOk};
ghost use Rattle.std.specs.List.{prefix_len};
ghost use Rattle.text_rules.specs.ReadEvent.{is_flag as is_flag_spec, owners_of as owners_spec, more_owners};
ghost use Rattle.schedule_text.specs.Seen.{read_on};

use crate::fields::{after_word, number_at};
use pcl_base::{Items, NoMemory, NodeNo};
use std::alloc::Global;

/// How many flags the bytes begin with.
pub(crate) fn flags_len(bytes: &[u8]) -> usize
    ensures value { result ≡ prefix_len is_flag_spec bytes.now }
    ensures most { result ≤ length bytes.now }
{
    bytes.iter().take_while(|b| is_flag(**b)).count()
}

/// Whether the byte is the flag of a node.
fn is_flag(byte: u8) -> bool
    ensures { result ≡ is_flag_spec byte }
{
    byte == b'0' || byte == b'1'
}

/// What these flags say of the nodes.
pub(crate) fn flags_of(alloc: Global, flags: &[u8]) -> Result<Items<bool>, NoMemory>
    ensures { IfOk result (λ live. live ≡ map (λ b. b == 49) flags.now) }
{
    let mut live = Vec::with_capacity(alloc, flags.len())?;
    for flag in flags {
        live.push(*flag == b'1')?;
    }
    Ok(Items::of(live))
}

/// One owner for each partition, 1 to 16 of them, and nothing behind them.
#[tactic(auto, unfolding(text_rules::specs::ReadEvent::owners_of))]
pub(crate) fn owners_of(alloc: Global, bytes: &[u8]) -> Result<Option<Items<NodeNo>>, NoMemory>
    ensures { IfOk result (λ o. o ≡ owners_spec bytes.now) }
{
    let Some((first, rest)) = number_at(bytes, 0, 15) else {
        return Ok(None);
    };
    let mut owners = Vec::new(alloc);
    owners.push(first as u8)?;
    if push_owners(&mut owners, rest, 15)? {
        return Ok(Some(Items::of(owners)));
    }
    Ok(None)
}

/// Appends up to `most` further owners, each after a comma. False means that the bytes are no such owners.
#[tactic(auto, unfolding(text_rules::specs::ReadEvent::more_owners))]
fn push_owners(owners: &mut Vec<u8>, bytes: &[u8], most: u32) -> Result<bool, NoMemory>
    ensures { IfOk result (λ whole. read_on whole owners.old.items owners.new.items (more_owners most bytes.now)) }
{
    if bytes.is_empty() {
        return Ok(true);
    }
    if most == 0 {
        return Ok(false);
    }
    let Some(rest) = after_word(bytes, b",") else {
        return Ok(false);
    };
    let Some((owner, rest)) = number_at(rest, 0, 15) else {
        return Ok(false);
    };
    owners.push(owner as u8)?;
    push_owners(owners, rest, most - 1)
}
