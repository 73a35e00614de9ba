use super::*;
use crate::counter::Counter;
use pcl_base::{Config, Mode, Reason, Request, TxId};
use std::rt::HostRuntime;

// A first read asks the owner and waits; a second access is refused, and so is the eviction of a page
// without a copy.
#[test]
fn a_waiting_access(rt: HostRuntime) {
    let config = Config::new(2, 9, 8, 2).unwrap();
    assert_eq!(rt; config.nodes(), 2);
    match Home::open(rt.alloc(), &config, 1, 1) {
        Ok(mut home) => {
            let mut disk = Counter::new(0, 0);
            let begun = home.begin().ok();
            let tx = TxId {
                node: 1,
                born: 1,
                serial: 1,
            };
            let read = Access {
                tx,
                page: 4,
                write: None,
            };
            let asked = home.access(&read, false, &mut disk).ok();
            let again = home.access(&read, false, &mut disk).err();
            let evicted = home.evict(4, &mut disk).err();
            let flushed = home.flush(9, &mut disk).err();
            home.close();
            assert_eq!(rt; begun, Some(tx));
            let request = Request {
                tx,
                page: 4,
                mode: Mode::Shared,
                have: None,
            };
            assert_eq!(rt; asked, Some(Next::Send(request)));
            assert_eq!(rt; again, Some(HomeFault::Refused(Reason::TxWaits)));
            assert_eq!(rt; evicted, Some(HomeFault::Refused(Reason::NoCopy)));
            assert_eq!(rt; flushed, Some(HomeFault::Refused(Reason::NoPage)));
            assert_eq!(rt; disk.writes, 0);
        }
        Err(_) => assert!(rt; false),
    }
}
