use super::*;
use lock_table::Table;
use pcl_base::{Config, CopyKind, Decision, Mode, TxId, Waiter};
use std::rt::HostRuntime;

fn tx(node: u8) -> TxId {
    TxId {
        node,
        born: 1,
        serial: 1,
    }
}

fn waiter(node: u8, mode: Mode) -> Waiter {
    Waiter {
        tx: tx(node),
        mode,
        have: Some(3),
    }
}

// A first reader of another node gets the right, and the table that was planned on stays as it was.
#[test]
fn a_first_reader(rt: HostRuntime) {
    let config = Config::new(3, 9, 8, 4).unwrap();
    assert_eq!(rt; config.nodes(), 3);
    assert_eq!(rt; config.pages(), 9);
    let t = Table::open(rt.alloc(), &config, 1, true).expect(&rt, "memory");
    match on_request(rt.alloc(), &t, 1, 4, waiter(0, Mode::Shared)) {
        Ok(read) => {
            let granted = Decision::Grant {
                tx: tx(0),
                mode: Mode::Shared,
                right: true,
                have: Some(3),
            };
            assert_eq!(rt; read.decisions.as_slice(), [granted].as_slice());
            assert_eq!(rt; read.entry.rights().len(), 1);
        }
        Err(_) => assert!(rt; false),
    }
    assert!(rt; t.find(4).is_none());
}

// While the table is rebuilt a request waits, and nothing is decided.
#[test]
fn a_request_while_the_table_is_rebuilt(rt: HostRuntime) {
    let config = Config::new(3, 9, 8, 4).unwrap();
    assert_eq!(rt; config.nodes(), 3);
    assert_eq!(rt; config.pages(), 9);
    let t = Table::open(rt.alloc(), &config, 1, false).expect(&rt, "memory");
    match on_request(rt.alloc(), &t, 1, 7, waiter(2, Mode::Exclusive)) {
        Ok(asked) => {
            assert_eq!(rt; asked.decisions.len(), 0);
            assert_eq!(rt; asked.entry.waiting().len(), 1);
            assert_eq!(rt; copy_of(&asked.entry, None, Some(0)), CopyKind::Image);
        }
        Err(_) => assert!(rt; false),
    }
}

// An end without a lock, a return without a right and settling change nothing.
#[test]
fn nothing_to_do(rt: HostRuntime) {
    let config = Config::new(3, 9, 8, 4).unwrap();
    assert_eq!(rt; config.nodes(), 3);
    assert_eq!(rt; config.pages(), 9);
    let t = Table::open(rt.alloc(), &config, 1, true).expect(&rt, "memory");
    let ended = on_release(rt.alloc(), &t, 1, 4, tx(2), Some(1));
    assert!(rt; ended.is_ok_and(|o| !o.changed && o.entry.version() == 0));
    let returned = on_return(rt.alloc(), &t, 1, 4, 0, [].as_slice());
    assert!(rt; returned.is_ok_and(|o| o.decisions.len() == 0 && o.entry.holders().len() == 0));
    let settled = on_settle(rt.alloc(), &t, 1, 4);
    assert!(rt; settled.is_ok_and(|o| o.decisions.len() == 0));
}
