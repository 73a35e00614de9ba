use super::*;
use pcl_base::{Body, Config, Message, NoMemory};
use std::alloc::Global;
use std::rt::HostRuntime;

fn revocation(epoch: u32) -> Message {
    Message {
        epoch,
        body: Body::Revoke { page: 0 },
    }
}

/// The epochs of what is taken from the link 0 to 1 of two nodes, after two messages were sent,
/// the first of them taken and put back, and one more sent on another link and cleared.
#[tactic(auto, unfolding(cluster_rules::specs::Links::put_link, cluster_rules::specs::Links::link_at, cluster_rules::specs::Links::clear_into))]
fn epochs(alloc: Global) -> Result<(u32, u32, bool), NoMemory> {
    let Ok(config) = Config::new(2, 4, 8, 2) else {
        return Err(NoMemory);
    };
    let mut links = Links::open(alloc, &config)?;
    links.reserve(0, 2)?;
    links.send(0, 1, revocation(5))?;
    links.send(0, 1, revocation(6))?;
    links.send(1, 0, revocation(7))?;
    links.clear(0);
    let empty = links.head(1, 0).is_none();
    let Ok(first) = links.take(0, 1) else {
        return Err(NoMemory);
    };
    let Ok(second) = links.take(0, 1) else {
        return Err(NoMemory);
    };
    Ok((first.epoch, second.epoch, empty))
}

// With ample memory each call does its work.
#[test]
fn first_in_first_out(rt: HostRuntime) {
    match epochs(rt.alloc()) {
        Ok(found) => assert!(rt; found == (5, 6, true)),
        Err(_) => assert!(rt; false),
    }
}
