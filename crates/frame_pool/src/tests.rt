use super::*;
use std::rt::HostRuntime;

// Two frames: two numbers out of 0 and 1, no third; a byte written to one leaves the other zero.
#[test]
fn two_frames(rt: HostRuntime) {
    match Pool::open(rt.alloc(), 2, 8) {
        Ok(mut pool) => {
            match pool.take() {
                Some(first) => match pool.take() {
                    Some(second) => {
                        assert_eq!(rt; first.number() + second.number(), 1);
                        assert_eq!(rt; pool.free(), 0);
                        let none_left = match pool.take() {
                            None => true,
                            Some(third) => {
                                pool.give(third);
                                false
                            }
                        };
                        assert!(rt; none_left);
                        pool.write(&first, 0, &[255]);
                        assert_eq!(rt; pool.bytes(&first), [255, 0, 0, 0, 0, 0, 0, 0].as_slice());
                        assert_eq!(rt; pool.bytes(&second), [0; 8].as_slice());
                        pool.copy(&first, &second);
                        assert_eq!(rt; pool.bytes(&second), [255, 0, 0, 0, 0, 0, 0, 0].as_slice());
                        pool.give(first);
                        assert_eq!(rt; pool.free(), 1);
                        pool.give(second);
                        pool.close();
                    }
                    None => unreachable!(),
                },
                None => unreachable!(),
            }
        }
        Err(_) => assert!(rt; false),
    }
}

// The largest pool is opened, all free, and closed.
#[test]
fn largest_pool(rt: HostRuntime) {
    match Pool::open(rt.alloc(), 4096, 4096) {
        Ok(pool) => {
            assert_eq!(rt; pool.free(), 4096);
            pool.close();
        }
        Err(_) => assert!(rt; false),
    }
}
