ghost use Rattle.std.specs.Prelude.{◌≡◌, ◌<◌, ◌∷◌, List, length, None, is_some, slice_index_or};
ghost use Rattle.node_rules.specs.NodeState.{Outgoing as Sending};
ghost use Rattle.cluster_rules.specs.Links.{row_at, send, send_all};
ghost use Rattle.link_model.specs.Spares.{spare_at};
ghost use Rattle.cluster_parts.specs.Steps.{HaveRoom};

use link_model::Links;
use node_parts::Outgoing;
use pcl_base::NodeNo;

/// Sends messages of a node, for which the links have room, one after the other; one to a node that is
/// down is lost. Each node that is up stands in the list at the place of its number. It takes no memory.
pub fn send_all<T>(nodes: &[Option<T>], links: &mut Links, from: NodeNo, sends: Vec<Outgoing>)
    requires { HaveRoom links.old from sends.items }
    ensures { links.new.links ≡ send_all (λ n. is_some (slice_index_or nodes.now n None)) from links.old.links sends.items }
{
    let mut left = sends.into_iter();
    while let Some(outgoing) = left.next() {
        send_one(nodes, links, from, outgoing);
    }
}

/// The same of one message. It leaves room for as many more as there was, but one.
fn send_one<T>(nodes: &[Option<T>], links: &mut Links, from: NodeNo, outgoing: Outgoing)
    requires sender { from < length links.old.links }
    requires receiver { outgoing.to < length (row_at links.old.links from) }
    requires room { 0 < spare_at links.old.spares from outgoing.to }
    ensures links { links.new.links ≡ send (λ n. is_some (slice_index_or nodes.now n None)) from links.old.links outgoing }
    ensures room { (rest : List Sending) → HaveRoom links.old from (outgoing ∷ rest) → HaveRoom links.new from rest }
{
    let Outgoing { to, message } = outgoing;
    if !is_up(nodes, to) {
        return;
    }
    match links.send(from, to, message) {
        Ok(()) => {}
        Err(_) => unreachable!(),
    }
}

/// Whether a node is there and up. It takes no memory.
pub fn is_up<T>(nodes: &[Option<T>], n: NodeNo) -> bool
    ensures { result ≡ is_some (slice_index_or nodes.now n None) }
{
    match nodes.get(n as usize) {
        Some(node) => node.is_some(),
        None => false,
    }
}
