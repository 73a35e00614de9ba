use super::*;
use node_parts::{NodeEvent, Parts};
use pcl_base::{Config, Reason};
use std::rt::HostRuntime;
use std::test::Fail;

// A node of fresh storage is in a view, and nothing waits or is held there.
#[test]
fn a_fresh_node_takes_events(rt: HostRuntime) -> Result<(), Fail> {
    let config = Config::new(2, 9, 8, 2)?;
    assert_eq!(rt; config.nodes(), 2);
    let node = Parts::first(rt.alloc(), &config, 1)?;
    let begin = refusal(&node, &NodeEvent::Begin);
    let flush = refusal(&node, &NodeEvent::Flush { page: 3 });
    let evict = refusal(&node, &NodeEvent::Evict { page: 9 });
    let bound = most(&node, &NodeEvent::Cut);
    let open = txs(&node);
    let held = holding(&node);
    let wait = waiting(&node);
    node.close();
    assert_eq!(rt; begin, None);
    assert_eq!(rt; flush, Some(Reason::NoCopy));
    assert_eq!(rt; evict, Some(Reason::NoPage));
    assert_eq!(rt; bound, 6);
    assert_eq!(rt; open?.len() + held?.len() + wait?.len(), 0);
    Ok(())
}

// A node that starts is in no view.
#[test]
fn a_node_in_no_view_refuses(rt: HostRuntime) -> Result<(), Fail> {
    let config = Config::new(2, 9, 8, 2)?;
    assert_eq!(rt; config.nodes(), 2);
    let node = Parts::start(rt.alloc(), &config, 0, 7)?;
    let begin = refusal(&node, &NodeEvent::Begin);
    let cut = refusal(&node, &NodeEvent::Cut);
    node.close();
    assert_eq!(rt; begin, Some(Reason::NotInView));
    assert_eq!(rt; cut, Some(Reason::NotInView));
    Ok(())
}
