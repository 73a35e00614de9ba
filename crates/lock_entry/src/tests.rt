use crate::{Decision, Entry, Waiter};
use pcl_base::{Mode, NoMemory, NodeNo, TxId, Version};
use std::test::Fail;

/// What happens to an entry before it is settled.
#[derive(Clone, Copy)]
enum Act {
    Ask(TxId, Mode),
    End(TxId, Option<Version>),
    Return(NodeNo, TxId),
}

const fn tx(node: NodeNo, serial: u32) -> TxId {
    TxId {
        node,
        born: 1,
        serial,
    }
}

fn settled(entry: &mut Entry, step: Act) -> Result<Vec<Decision>, NoMemory> {
    apply(entry, step)?;
    entry.settle(0)
}

fn apply(entry: &mut Entry, step: Act) -> Result<(), NoMemory> {
    match step {
        Act::Ask(tx, mode) => entry.ask(Waiter {
            tx,
            mode,
            have: None,
        }),
        Act::End(tx, change) => {
            let _taken = entry.end(tx, change);
            Ok(())
        }
        Act::Return(node, reader) => entry.returned(node, [reader].as_slice()),
    }
}

/// The number of decisions, and the last one in short: node and serial of the transaction and
/// its mode, with `Some` for a right; or a node alone.
fn short(decisions: &[Decision]) -> (usize, NodeNo, u32, Option<bool>) {
    match decisions.last() {
        None => (0, 0, 0, None),
        Some(Decision::Revoke { node }) => (decisions.len(), *node, 0, None),
        Some(Decision::Grant { tx, right, .. }) => {
            (decisions.len(), tx.node, tx.serial, Some(*right))
        }
    }
}

#[test]
fn settles(rt: HostRuntime) -> Result<(), Fail> {
    let table = [
        // Readers, then an upgrade, then a writer.
        (Act::Ask(tx(0, 1), Mode::Shared), (1, 0, 1, Some(false))),
        (Act::Ask(tx(0, 2), Mode::Shared), (1, 0, 2, Some(false))),
        (Act::Ask(tx(0, 3), Mode::Exclusive), (0, 0, 0, None)),
        (Act::Ask(tx(0, 1), Mode::Exclusive), (0, 0, 0, None)),
        (Act::End(tx(0, 2), None), (1, 0, 1, Some(false))),
        (Act::End(tx(0, 1), Some(5)), (1, 0, 3, Some(false))),
        // Several are granted, the last without a second right.
        (Act::Ask(tx(1, 1), Mode::Shared), (0, 0, 0, None)),
        (Act::Ask(tx(2, 1), Mode::Shared), (0, 0, 0, None)),
        (Act::Ask(tx(1, 2), Mode::Shared), (0, 0, 0, None)),
        (Act::End(tx(0, 3), None), (3, 1, 2, Some(false))),
        // Both rights are revoked, once.
        (Act::Ask(tx(0, 4), Mode::Exclusive), (2, 2, 0, None)),
        (Act::Ask(tx(0, 5), Mode::Exclusive), (0, 0, 0, None)),
        // A reader's return comes before the writer that waits.
        (Act::Return(1, tx(1, 1)), (0, 0, 0, None)),
        (Act::Return(2, tx(1, 1)), (0, 0, 0, None)),
        (Act::End(tx(1, 2), None), (0, 0, 0, None)),
        (Act::End(tx(1, 1), None), (1, 0, 4, Some(false))),
        (Act::End(tx(0, 4), Some(6)), (1, 0, 5, Some(false))),
    ];
    let mut entry = Entry::new(rt.alloc(), 4);
    for (step, expected) in table {
        let decisions = settled(&mut entry, step)?;
        assert_eq!(rt; short(decisions.as_slice()), expected);
    }
    assert_eq!(rt; entry.version(), 6);
    Ok(())
}

#[test]
fn reports_come_in_and_the_dead_go(rt: HostRuntime) -> Result<(), Fail> {
    let mut entry = Entry::new(rt.alloc(), 7);
    entry.reported(tx(1, 1), Mode::Shared)?;
    entry.reported_right(1)?;
    entry.set_version(9);
    let copy = entry.copy()?;
    entry.purge([true].as_slice());
    assert_eq!(rt; entry.holders().len() + entry.rights().len(), 0);
    assert_eq!(rt;
        (copy.version(), copy.holders().len(), copy.rights().len()),
        (9, 1, 1)
    );
    Ok(())
}
