use super::*;
use pcl_base::Config;
use std::alloc::Global;
use std::rt::HostRuntime;

/// What `decode` answers to these hexadecimal digits, and the digits that `encode` makes of it.
fn answer(alloc: Global, config: &Config, text: &str) -> Result<String, DecodeFault> {
    let Ok(bytes) = hex::decode(alloc, text) else {
        return Err(DecodeFault::NoMemory);
    };
    let message = decode(alloc, config, bytes.as_slice())?;
    match encode(alloc, &message) {
        Ok(again) => match hex::encode(alloc, again.as_slice()) {
            Ok(digits) => Ok(digits),
            Err(_) => Err(DecodeFault::NoMemory),
        },
        Err(_) => Err(DecodeFault::NoMemory),
    }
}

// A message of each kind, among two nodes and four pages of eight bytes, read and written again.
#[test]
fn messages_of_every_kind(rt: HostRuntime) {
    let texts = [
        "0000000101010000000200000003000000030200",
        "00000001010100000002000000030000000301010000000000000005",
        "0000000202010000000200000003000000010101000000000000000703",
        "00000002020100000002000000030000000102000000000000000007020000beef00000000",
        "0000000203010000000200000003000000010100000000000000080000beef00000000",
        "00000002030100000002000000030000000100",
        "00000002050000000100000001010000000200000003",
        "00000002060100000001010000000200000003000000030201000000000000000400000001010000000200000003000000010100000002000000010000000000000006000000030000000000000002",
        "000000010400000001",
    ];
    let Ok(config) = Config::new(2, 4, 8, 2) else {
        return;
    };
    for text in texts {
        match answer(rt.alloc(), &config, text) {
            Ok(again) => assert_eq!(rt; again.as_str(), text),
            Err(_) => assert!(rt; false),
        }
    }
}

// Bytes that are no message, with the first fault from the left and its place.
#[test]
fn malformed_messages(rt: HostRuntime) {
    let texts = [
        ("", DecodeFault::Short { place: 0 }),
        ("0000000004", DecodeFault::BadField { place: 0 }),
        ("0000000107", DecodeFault::BadKind { place: 4 }),
        ("000000010102", DecodeFault::BadField { place: 5 }),
        (
            "0000000101010000000200000003000000030202",
            DecodeFault::BadField { place: 19 },
        ),
        (
            "0000000102010000000200000003000000030201",
            DecodeFault::BadField { place: 19 },
        ),
        (
            "000000010301000000020000000300000003010000000000000000",
            DecodeFault::BadField { place: 19 },
        ),
        (
            "00000001050000000300000001",
            DecodeFault::Short { place: 13 },
        ),
        (
            "0000000105000000030000000000",
            DecodeFault::TooLong { place: 13 },
        ),
        (
            "0000000106010000000101000000020000000300000002",
            DecodeFault::BadField { place: 19 },
        ),
        (
            "0000000106010000000000000000ffffffff0000000100000000000000",
            DecodeFault::Short { place: 22 },
        ),
        ("0000000104000000", DecodeFault::Short { place: 5 }),
        ("000000010900000001", DecodeFault::BadKind { place: 4 }),
        ("000000010400000004", DecodeFault::BadField { place: 5 }),
        ("00000001040000000100", DecodeFault::TooLong { place: 9 }),
    ];
    let Ok(config) = Config::new(2, 4, 8, 2) else {
        return;
    };
    for (text, fault) in texts {
        match answer(rt.alloc(), &config, text) {
            Ok(_) => assert!(rt; false),
            Err(found) => assert_eq!(rt; found, fault),
        }
    }
}

// A message speaks of the partition of its page; a report names its own.
#[test]
fn partitions(rt: HostRuntime) {
    if let Ok(config) = Config::new(2, 4, 8, 2) {
        let message = Message {
            epoch: 1,
            body: Body::Revoke { page: 3 },
        };
        assert_eq!(rt; partition(&config, &message), 1);
    }
}
