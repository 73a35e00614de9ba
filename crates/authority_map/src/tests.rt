ghost use Rattle.std.specs.Prelude.{◌≡◌, IfOk, length};

use super::*;
use pcl_base::Config;
use std::alloc::Global;
use std::process::Abort;
use std::rt::HostRuntime;
use std::test::Fail;

// Two nodes.
fn two() -> Result<Config, Fail>
    ensures { IfOk result (λ c. c.nodes ≡ 2) }
{
    match Config::new(2, 2, 8, 2) {
        Ok(config) => Ok(config),
        Err(_) => unreachable!(),
    }
}

// The view after another of two nodes.
fn after(before: &View, alloc: Global, live: [bool; 2], owners: [u8; 2]) -> Result<View, Fail>
    requires { length before.now.live ≡ 2 }
    ensures { IfOk result (λ v. length v.live ≡ 2) }
{
    let config = two()?;
    let live = Vec::from_array(alloc, live)?;
    let owners = Vec::from_array(alloc, owners)?;
    match before.next(alloc, &config, &live, &owners) {
        Ok(view) => Ok(view),
        Err(fault) => Err(fault.into()),
    }
}

// View 1.
fn first(alloc: Global) -> Result<View, Fail>
    ensures { IfOk result (λ v. length v.live ≡ 2) }
{
    let config = two()?;
    match View::first(alloc, &config) {
        Ok(view) => Ok(view),
        Err(fault) => Err(fault.into()),
    }
}

// View 2, in which node 1 is lost.
fn lost(alloc: Global) -> Result<View, Fail>
    ensures { IfOk result (λ v. length v.live ≡ 2) }
{
    let view = first(alloc)?;
    after(&view, alloc, [true, false], [0, 0])
}

// View 3, in which node 1 is back and owns its partition again.
fn back(alloc: Global) -> Result<View, Fail>
    ensures { IfOk result (λ v. length v.live ≡ 2) }
{
    let view = lost(alloc)?;
    after(&view, alloc, [true, true], [0, 1])
}

// View 2, in which partition 0 has moved to node 1.
fn moved(alloc: Global) -> Result<View, Fail>
    ensures { IfOk result (λ v. length v.live ≡ 2) }
{
    let view = first(alloc)?;
    after(&view, alloc, [true, true], [1, 1])
}

// After view 1 no view has these flags and owners, by this rule.
fn check_rule(
    rt: &impl Abort,
    alloc: Global,
    live: &[bool],
    owners: &[u8],
    rule: u8,
) -> Result<(), Fail> {
    let config = two()?;
    let view = first(alloc)?;
    let live = live.to_vec(alloc)?;
    let owners = owners.to_vec(alloc)?;
    match view.next(alloc, &config, &live, &owners) {
        Ok(_) => assert!(rt; false),
        Err(fault) => assert_eq!(rt; fault, ViewFault::BadView { rule }),
    }
    Ok(())
}

// Each broken rule has its number, and the first is named.
#[test]
fn broken_rules(rt: HostRuntime) -> Result<(), Fail> {
    let alloc = rt.alloc();
    check_rule(&rt, alloc, &[true], &[0, 5], 1)?;
    check_rule(&rt, alloc, &[true, true], &[0], 1)?;
    check_rule(&rt, alloc, &[false, false], &[0, 1], 2)?;
    check_rule(&rt, alloc, &[true, false], &[0, 1], 4)?;
    check_rule(&rt, alloc, &[true, true], &[0, 2], 4)
}

// After the last epoch no view is made.
#[test]
fn last_epoch(rt: HostRuntime) -> Result<(), Fail> {
    let alloc = rt.alloc();
    let config = two()?;
    let live = Vec::from_array(alloc, [true, true])?;
    let owners = Vec::from_array(alloc, [0, 1])?;
    let epochs = Vec::from_array(alloc, [1, 1])?;
    let view = View::of(
        alloc,
        &config,
        4_294_967_295,
        &live,
        &owners,
        &epochs,
        &epochs,
    )?;
    match view.reopen(alloc, &config) {
        Ok(_) => assert!(rt; false),
        Err(fault) => assert_eq!(rt; fault, ViewFault::BadView { rule: 6 }),
    }
    Ok(())
}

fn check_epochs(rt: &impl Abort, view: &View, epoch: u32, since: [u32; 2], born: [u32; 2])
    requires { length view.now.live ≡ 2 }
{
    assert_eq!(rt; view.epoch(), epoch);
    assert_eq!(rt; view.since(0), since[0]);
    assert_eq!(rt; view.since(1), since[1]);
    assert_eq!(rt; view.born(0), born[0]);
    assert_eq!(rt; view.born(1), born[1]);
}

// A node is lost and comes back.
#[test]
fn a_node_returns(rt: HostRuntime) -> Result<(), Fail> {
    let lost = lost(rt.alloc())?;
    check_epochs(&rt, &lost, 2, [1, 2], [1, 1]);
    let back = after(&lost, rt.alloc(), [true, true], [0, 1])?;
    check_epochs(&rt, &back, 3, [1, 3], [1, 3]);
    assert!(rt; back.follows(&lost));
    assert!(rt; !lost.follows(&back));
    Ok(())
}

// A partition moves from one live node to another.
#[test]
fn a_partition_moves(rt: HostRuntime) -> Result<(), Fail> {
    let moved = moved(rt.alloc())?;
    check_epochs(&rt, &moved, 2, [2, 1], [1, 1]);
    let copy = moved.copy()?;
    assert_eq!(rt; copy.owner(0), 1);
    assert!(rt; copy.live(0));
    Ok(())
}

#[test]
fn all_begin_anew(rt: HostRuntime) -> Result<(), Fail> {
    let alloc = rt.alloc();
    let config = two()?;
    let view = lost(alloc)?;
    match view.reopen(alloc, &config) {
        Ok(anew) => assert_eq!(rt; anew.epoch(), 3),
        Err(_) => assert!(rt; false),
    }
    Ok(())
}

// One case for each clause of judging.
#[test]
fn later_epochs_are_held(rt: HostRuntime) -> Result<(), Fail> {
    let view = first(rt.alloc())?;
    assert_eq!(rt; view.judge(0, 1, 2, 0), Verdict::Held);
    Ok(())
}

#[test]
fn dead_senders_are_dropped(rt: HostRuntime) -> Result<(), Fail> {
    let view = lost(rt.alloc())?;
    assert_eq!(rt; view.judge(0, 1, 2, 0), Verdict::Dropped);
    Ok(())
}

#[test]
fn earlier_lives_are_dropped(rt: HostRuntime) -> Result<(), Fail> {
    let view = back(rt.alloc())?;
    assert_eq!(rt; view.judge(0, 1, 2, 0), Verdict::Dropped);
    assert_eq!(rt; view.judge(1, 0, 2, 0), Verdict::Dropped);
    assert_eq!(rt; view.judge(0, 1, 3, 0), Verdict::Taken);
    Ok(())
}

#[test]
fn earlier_owners_are_dropped(rt: HostRuntime) -> Result<(), Fail> {
    let view = moved(rt.alloc())?;
    assert_eq!(rt; view.judge(0, 1, 1, 0), Verdict::Dropped);
    assert_eq!(rt; view.judge(0, 1, 1, 1), Verdict::Taken);
    Ok(())
}
