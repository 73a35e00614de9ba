use super::*;
use buffer_pool::BufferPool;
use pcl_base::TxId;
use std::rt::HostRuntime;

const WRITER: TxId = TxId {
    node: 1,
    born: 1,
    serial: 1,
};

// An image goes out as it was installed, and the private copy with its change goes out beside it.
#[test]
#[tactic(auto, unfolding(node_rules::specs::BufferRule::place, node_rules::specs::BufferRule::install, node_rules::specs::BufferRule::private, node_rules::specs::BufferRule::fill, node_rules::specs::BufferRule::change, node_rules::specs::BufferRule::slot_in, node_rules::specs::BufferRule::private_in, node_rules::specs::BufferRule::change_slot, node_rules::specs::BufferRule::change_private))]
fn images_go_out(rt: HostRuntime) {
    match BufferPool::open(rt.alloc(), 2, 4) {
        Ok(mut pool) => {
            pool.place(7);
            pool.install(7, 5, &[1, 2, 3, 4], true);
            pool.private(WRITER, 7);
            pool.fill(WRITER, 7);
            pool.change(WRITER, 7, 1, &[9, 8]);
            let image = image_out(rt.alloc(), &pool, 7);
            let changed = private_out(rt.alloc(), &pool, WRITER, 7);
            pool.close();
            match (image, changed) {
                (Ok(image), Ok(changed)) => {
                    assert_eq!(rt; image.as_slice(), [1, 2, 3, 4].as_slice());
                    assert_eq!(rt; changed.as_slice(), [1, 9, 8, 4].as_slice());
                }
                _ => assert!(rt; false),
            }
        }
        Err(_) => assert!(rt; false),
    }
}
