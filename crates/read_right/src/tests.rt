use super::*;
use pcl_base::TxId;
use std::rt::HostRuntime;

fn tx(serial: u32) -> TxId {
    TxId {
        node: 0,
        born: 1,
        serial,
    }
}

// A right is accepted once, read under, given back with its readers in order, and gone then.
#[test]
fn a_right_is_spent_once(rt: HostRuntime) {
    let mut shelf = Shelf::open(rt.alloc());
    assert_eq!(rt; shelf.accept(7, 3), Ok(true));
    assert_eq!(rt; shelf.add_reader(7, tx(2)), Ok(()));
    assert_eq!(rt; shelf.add_reader(7, tx(1)), Ok(()));
    assert_eq!(rt; shelf.accept(7, 4), Ok(false));
    assert!(rt; shelf.may_read(7, 3));
    match shelf.give_back(7) {
        Some(answer) => {
            assert_eq!(rt; answer.page, 7);
            assert_eq!(rt; answer.readers.as_slice(), [tx(2), tx(1)].as_slice());
        }
        None => assert!(rt; false),
    }
    assert!(rt; !shelf.may_read(7, 3));
    assert!(rt; shelf.give_back(7).is_none());
    shelf.forfeit_all();
}

// Rights are told in the order of their acceptance.
#[test]
fn rights_in_order(rt: HostRuntime) {
    let mut shelf = Shelf::open(rt.alloc());
    assert_eq!(rt; shelf.reserve(2), Ok(()));
    assert_eq!(rt; shelf.accept(9, 1), Ok(true));
    assert_eq!(rt; shelf.accept(4, 2), Ok(true));
    assert_eq!(rt; shelf.count(), 2);
    match shelf.rights() {
        Ok(pairs) => assert_eq!(rt; pairs.as_slice(), [(9, 1), (4, 2)].as_slice()),
        Err(_) => assert!(rt; false),
    }
    assert!(rt; shelf.turn(9).is_some());
    assert_eq!(rt; shelf.count(), 1);
    shelf.forfeit_all();
}
