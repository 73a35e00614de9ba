use super::*;
use node_parts::NodeEvent;
use pcl_base::{Event, Items, TxId};
use std::rt::HostRuntime;
use std::test::Fail;

// With ample memory a write is asked of the home of its transaction.
#[test]
fn a_write_is_asked_of_its_home(rt: HostRuntime) -> Result<(), Fail> {
    let alloc = rt.alloc();
    let tx = TxId {
        node: 1,
        born: 1,
        serial: 1,
    };
    let event = Event::Write {
        tx,
        page: 1,
        place: 3,
        bytes: Items::of(vec![in alloc; 7u8, 9]?),
    };
    let (node, asked) = asked_of(&event)?;
    assert_eq!(rt; node, 1);
    match asked {
        NodeEvent::Write {
            tx: _tx,
            page: _page,
            place,
            bytes,
        } => {
            assert_eq!(rt; place, 3);
            assert_eq!(rt; bytes, Items::of(vec![in alloc; 7u8, 9]?));
        }
        _other => assert!(rt; false),
    }
    Ok(())
}
