use super::*;
use pcl_base::TxId;
use std::rt::HostRuntime;

// A new buffer of two frames: both are free, no page has a slot, and any access finds its frames.
#[test]
fn new_buffer(rt: HostRuntime) {
    let tx = TxId {
        node: 0,
        born: 1,
        serial: 1,
    };
    match BufferPool::open(rt.alloc(), 2, 8) {
        Ok(pool) => {
            let free = pool.free();
            let found = (pool.find(7), pool.has_slot(7), pool.dirty(7));
            let fits = (pool.fits(tx, 7, false), pool.fits(tx, 7, true));
            let victim = pool.victim(7);
            pool.close();
            assert_eq!(rt; free, 2);
            assert_eq!(rt; found, (None, false, false));
            assert_eq!(rt; fits, (true, true));
            assert_eq!(rt; victim, None);
        }
        Err(_) => assert!(rt; false),
    }
}

// Two frames: the last unpinned slot goes, a touch moves a slot to the front, and with both slots
// pinned an access of a third page finds no frame.
#[test]
#[tactic(auto, unfolding(node_rules::specs::BufferRule::place, node_rules::specs::BufferRule::install, node_rules::specs::BufferRule::touch, node_rules::specs::BufferRule::pin, node_rules::specs::BufferRule::unpin, node_rules::specs::BufferRule::slot_in, node_rules::specs::BufferRule::change_slot))]
fn no_frame(rt: HostRuntime) {
    let tx = TxId {
        node: 0,
        born: 1,
        serial: 1,
    };
    match BufferPool::open(rt.alloc(), 2, 4) {
        Ok(mut pool) => {
            pool.place(0);
            pool.install(0, 3, &[1, 2, 3, 4], false);
            pool.place(1);
            pool.install(1, 0, &[0, 0, 0, 0], false);
            let first = pool.victim(2);
            pool.touch(0);
            let second = pool.victim(2);
            pool.pin(1);
            let third = pool.victim(2);
            let fits = pool.fits(tx, 2, false);
            pool.pin(0);
            let full = pool.fits(tx, 2, false);
            let none = pool.victim(2);
            pool.unpin(0);
            let gone = pool.evict(0);
            let free = pool.free();
            pool.close();
            assert_eq!(rt; (first, second, third), (Some(0), Some(1), Some(0)));
            assert_eq!(rt; (fits, full, none), (true, false, None));
            assert_eq!(rt; (gone, free), (true, 1));
        }
        Err(_) => assert!(rt; false),
    }
}

// The largest buffer is opened and closed.
#[test]
fn largest_buffer(rt: HostRuntime) {
    match BufferPool::open(rt.alloc(), 4096, 4096) {
        Ok(pool) => {
            let free = pool.free();
            pool.close();
            assert_eq!(rt; free, 4096);
        }
        Err(_) => assert!(rt; false),
    }
}
