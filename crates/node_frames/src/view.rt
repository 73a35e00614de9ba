ghost use Rattle.std.specs.Prelude.{◌≡◌, ℕ, ◌<◌, ◌≤◌, ◌++◌, true, length, map, IfOk, IfErr, IfSome};
ghost use Rattle.std.specs.List.{list_all};
ghost use Rattle.pcl_base.specs.Limits.{is_between};
ghost use Rattle.text_rules.specs.MessageBytes.{flag_byte};
ghost use Rattle.text_rules.specs.FieldBytes.{items};
ghost use Rattle.frame_rules.specs.Frames.{is_live_node, epochs_bytes, view_bytes, IsView};
ghost use Rattle.frame_rules.specs.ReadFrame.{live_fields, owner_field, epoch_field, view_field};
ghost use Rattle.node_frames.specs.Seen.{stop_in};

use crate::fields::{Fields, ReadFault};
use authority_map::View;
use pcl_base::{Config, NodeNo};
use std::alloc::Global;

/// The live flags of all nodes, of which that of `me` is set.
fn live_flags(
    alloc: Global,
    fields: &mut Fields,
    me: NodeNo,
    nodes: u8,
) -> Result<Vec<bool>, ReadFault>
    requires { me < nodes }
    ensures ok { IfOk result (λ live. live_fields me 0 nodes fields.old ≡ Ok (live.items, fields.new)) }
    ensures err { IfErr result (λ e. IfSome (stop_in e) (λ s. live_fields me 0 nodes fields.old ≡ Err s)) }
    ensures spelt { IfOk result (λ live. fields.old ≡ map flag_byte live.items ++ fields.new) }
    ensures len { IfOk result (λ live. length live.items ≡ nodes) }
    ensures me_live { IfOk result (λ live. is_live_node live.items me ≡ true) }
{
    let mut live = Vec::new(alloc);
    for node in 0..nodes {
        let flag = fields.live(me, node)?;
        live.push(flag)?;
    }
    Ok(live)
}

/// The owner of each partition, a live node.
fn owners(alloc: Global, fields: &mut Fields, live: &[bool]) -> Result<Vec<NodeNo>, ReadFault>
    ensures ok { IfOk result (λ xs. items (length live.now) (owner_field live.now) fields.old ≡ Ok (xs.items, fields.new)) }
    ensures err { IfErr result (λ e. IfSome (stop_in e) (λ s. items (length live.now) (owner_field live.now) fields.old ≡ Err s)) }
    ensures spelt { IfOk result (λ xs. fields.old ≡ xs.items ++ fields.new) }
    ensures len { IfOk result (λ xs. length xs.items ≡ length live.now) }
    ensures live { IfOk result (λ xs. list_all (is_live_node live.now) xs.items ≡ true) }
{
    let mut owners = Vec::new(alloc);
    for _ in 0..live.len() {
        let owner = fields.owner(live)?;
        owners.push(owner)?;
    }
    Ok(owners)
}

/// An epoch for each node or partition, from 1 to that of the view.
fn epochs(
    alloc: Global,
    fields: &mut Fields,
    count: usize,
    most: u32,
) -> Result<Vec<u32>, ReadFault>
    ensures ok { IfOk result (λ xs. items count (epoch_field most) fields.old ≡ Ok (xs.items, fields.new)) }
    ensures err { IfErr result (λ e. IfSome (stop_in e) (λ s. items count (epoch_field most) fields.old ≡ Err s)) }
    ensures spelt { IfOk result (λ xs. fields.old ≡ epochs_bytes xs.items ++ fields.new) }
    ensures len { IfOk result (λ xs. length xs.items ≡ count) }
    ensures within { IfOk result (λ xs. list_all (is_between 1 most) xs.items ≡ true) }
{
    let mut epochs = Vec::new(alloc);
    for _ in 0..count {
        let epoch = fields.epoch(most)?;
        epochs.push(epoch)?;
    }
    Ok(epochs)
}

/// A view in a frame to node `me`, with what is left behind it.
pub fn view(
    alloc: Global,
    fields: &mut Fields,
    config: &Config,
    me: NodeNo,
) -> Result<View, ReadFault>
    requires { me < config.now.nodes }
    ensures ok { IfOk result (λ v. view_field config.now me fields.old ≡ Ok (v, fields.new)) }
    ensures err { IfErr result (λ e. IfSome (stop_in e) (λ s. view_field config.now me fields.old ≡ Err s)) }
    ensures spelt { IfOk result (λ v. fields.old ≡ view_bytes v ++ fields.new) }
    ensures is_view { IfOk result (IsView config.now me) }
{
    let epoch = fields.first_epoch()?;
    let nodes = config.nodes() as usize;
    let live = live_flags(alloc, fields, me, nodes as u8)?;
    let owners = owners(alloc, fields, &live)?;
    let since = epochs(alloc, fields, nodes, epoch)?;
    let born = epochs(alloc, fields, nodes, epoch)?;
    match View::of(alloc, config, epoch, &live, &owners, &since, &born) {
        Ok(view) => Ok(view),
        Err(_) => Err(ReadFault::NoMemory),
    }
}
