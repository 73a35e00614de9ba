use crate::maker::Maker;
use pcl_base::{Config, Event, Items, TxId};
use std::alloc::Global;
use std::test::Fail;

fn tx(node: u8, serial: u32) -> TxId {
    TxId {
        node,
        born: 1,
        serial,
    }
}

fn bytes(alloc: Global, items: &[u8]) -> Result<Items<u8>, Fail> {
    Ok(Items::of(Vec::from_slice(alloc, items)?))
}

#[test]
fn four_events(rt: HostRuntime) -> Result<(), Fail> {
    let alloc = rt.alloc();
    let config = Config::new(2, 4, 8, 4).ok().ok_or("no configuration")?;
    let mut maker = Maker::open(alloc, &config, 1, 4).ok().ok_or("no memory")?;
    let events = vec![in alloc;
        Event::Begin { node: 1 },
        Event::Begin { node: 1 },
        Event::Read {
            tx: tx(1, 1),
            page: 1
        },
        Event::Write {
            tx: tx(1, 2),
            page: 3,
            place: 0,
            bytes: bytes(alloc, &[0x5f])?
        },
    ]?;
    for event in events {
        assert_eq!(rt; maker.next(), Ok(Some(event)));
    }
    assert_eq!(rt; maker.next(), Ok(None));
    Ok(())
}

#[test]
fn a_failure_in_round_20(rt: HostRuntime) -> Result<(), Fail> {
    let alloc = rt.alloc();
    let config = Config::new(3, 5, 8, 4).ok().ok_or("no configuration")?;
    let mut maker = Maker::open(alloc, &config, 7, 699).ok().ok_or("no memory")?;
    for _ in 0..694 {
        assert!(rt; maker.next().is_ok());
    }
    let live = Items::of(Vec::from_slice(alloc, &[false, true, true])?);
    let events = vec![in alloc;
        Event::Crash { node: 0 },
        Event::View {
            live,
            owners: bytes(alloc, &[1, 1, 2])?
        },
        Event::Install { node: 1 },
        Event::Install { node: 2 },
        Event::Deliver { from: 1, to: 2 },
    ]?;
    for event in events {
        assert_eq!(rt; maker.next(), Ok(Some(event)));
    }
    assert_eq!(rt; maker.next(), Ok(None));
    Ok(())
}
