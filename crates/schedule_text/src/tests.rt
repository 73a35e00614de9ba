use super::LineReason::{self, Byte, Short};
use super::*;
use std::alloc::Global;
use std::rt::HostRuntime;

/// What is printed again of a line.
fn again(alloc: Global, line: &[u8]) -> Result<Vec<u8>, LineFault> {
    let event = read_line(alloc, line)?;
    match print_event(alloc, &event) {
        Ok(bytes) => Ok(bytes),
        Err(_) => Err(LineFault::NoMemory),
    }
}

// A line of each word, read and printed again.
#[test]
fn lines_of_every_word(rt: HostRuntime) {
    let lines = [
        b"begin 15".as_slice(),
        b"read 0.1.4294967295 65535".as_slice(),
        b"write 0.1.12 65535 4095 beef".as_slice(),
        b"write 0.1.1 0 0 -".as_slice(),
        b"commit 3.2.1".as_slice(),
        b"abort 15.1.10".as_slice(),
        b"deliver 3 15".as_slice(),
        b"evict 0 65535".as_slice(),
        b"flush 10 0".as_slice(),
        b"crash 7".as_slice(),
        b"view 0110 1,2,1,15".as_slice(),
        b"view 0000000000000000 0".as_slice(),
        b"install 10".as_slice(),
        b"reopen".as_slice(),
        b"arm 0 1 0".as_slice(),
        b"arm 15 4294967295 4294967295".as_slice(),
        b"cut 1".as_slice(),
    ];
    for line in lines {
        match again(rt.alloc(), line) {
            Ok(bytes) => assert!(rt; bytes.as_slice() == line),
            Err(_) => assert!(rt; false),
        }
    }
}

// Lines outside the grammar, with the least column and why.
const BAD_LINES: [(&[u8], usize, LineReason); 67] = [
    (b"begin", 6, Short),
    (b"begin ", 7, Short),
    (b"begin 16", 8, Byte),
    (b"begin 00", 8, Byte),
    (b"begin 0 ", 8, Byte),
    (b"begin a", 7, Byte),
    (b"Begin 0", 1, Byte),
    (b"read", 5, Short),
    (b"read 0.1.1", 11, Short),
    (b"read 0.1.1 ", 12, Short),
    (b"read 0.1.1 65536", 16, Byte),
    (b"read 0.1.1 01", 13, Byte),
    (b"read 16.1.1 0", 7, Byte),
    (b"read 0.0.1 1", 8, Byte),
    (b"read 0.1.0 1", 10, Byte),
    (b"read 0.1.4294967296 1", 19, Byte),
    (b"read 0.01.1 1", 8, Byte),
    (b"read 0.1.1 1.", 13, Byte),
    (b"read  0.1.1 1", 6, Byte),
    (b"write 0.1.1 0 0", 16, Short),
    (b"write 0.1.1 0 0 ", 17, Short),
    (b"write 0.1.1 0 0 abc", 20, Short),
    (b"write 0.1.1 0 0 aB", 18, Byte),
    (b"write 0.1.1 0 0 A0", 17, Byte),
    (b"write 0.1.1 0 0 -a", 18, Byte),
    (b"write 0.1.1 0 4096 00", 18, Byte),
    (b"write 0.1.1 65536 0 00", 17, Byte),
    (b"write 0.1.1 0 0 0g", 18, Byte),
    (b"commit 0.1", 11, Short),
    (b"commit 0.1.1.", 13, Byte),
    (b"commit 0.1.1 ", 13, Byte),
    (b"abort 0.1.42949672950", 21, Byte),
    (b"abort 15.1.", 12, Short),
    (b"deliver 0", 10, Short),
    (b"deliver 0 16", 12, Byte),
    (b"deliver 3,4", 10, Byte),
    (b"evict 0 70000", 13, Byte),
    (b"evict 1", 8, Short),
    (b"flush 1 -1", 9, Byte),
    (b"flush 0 65535 ", 14, Byte),
    (b"crash 7x", 8, Byte),
    (b"crash", 6, Short),
    (b"view", 5, Short),
    (b"view 012 0", 8, Byte),
    (b"view 00000000000000000 0", 22, Byte),
    (b"view 1 ", 8, Short),
    (b"view 1 0,", 10, Short),
    (b"view 1 ,", 8, Byte),
    (b"view 1 0,16", 11, Byte),
    (b"view 1 0,00", 11, Byte),
    (b"view 1 0,0,0,0,0,0,0,0,0,0,0,0,0,0,0,15,", 40, Byte),
    (b"view 1 0,0,0,0,0,0,0,0,0,0,0,0,0,0,0,0,0", 39, Byte),
    (b"install 20", 10, Byte),
    (b"install", 8, Short),
    (b"reopen ", 7, Byte),
    (b"reope", 6, Short),
    (b"arm 0 0 1", 7, Byte),
    (b"arm 0 1", 8, Short),
    (b"arm 0 1 4294967296", 18, Byte),
    (b"arm 0 4294967296 0", 16, Byte),
    (b"cut", 4, Short),
    (b"cut 1,", 6, Byte),
    (b"c", 2, Short),
    (b"re", 3, Short),
    (b"x", 1, Byte),
    (b"", 1, Short),
    (b"get 0.1.1 1", 1, Byte),
];

#[test]
fn bad_lines(rt: HostRuntime) {
    for (line, column, reason) in BAD_LINES {
        let due = Err(LineFault::BadLine { column, reason });
        assert!(rt; read_line(rt.alloc(), line) == due);
    }
}

// A first line, and some that are none.
#[test]
fn first_lines(rt: HostRuntime) {
    let header = Header {
        nodes: 1,
        pages: 0,
        size: 65_536,
        frames: 2,
    };
    assert!(rt; read_header(b"pcl 1 1 0 65536 2") == Ok(header));
    let lines = [
        (b"".as_slice(), 1, Short),
        (b"pcl 1 1 1 8".as_slice(), 12, Short),
        (b"pcl 2 1 1 8 2".as_slice(), 5, Byte),
        (b"pcl 1 1 1 8 65537".as_slice(), 17, Byte),
        (b"pcl 1 01 1 8 2".as_slice(), 8, Byte),
        (b"pcl 1 1 1 8 2 ".as_slice(), 14, Byte),
        (b"PCL".as_slice(), 1, Byte),
        (b"pcl 1 1,1".as_slice(), 8, Byte),
    ];
    for (line, column, reason) in lines {
        assert!(rt; read_header(line) == Err(LineFault::BadLine { column, reason }));
    }
}

// The texts of the faults.
#[test]
fn texts_of_faults(rt: HostRuntime) {
    let fault = LineFault::BadLine {
        column: 3,
        reason: Byte,
    };
    match fault.to_string(rt.alloc()) {
        Ok(text) => assert_eq!(rt; text.as_str(), "BadLine"),
        Err(_) => assert!(rt; false),
    }
    match LineFault::NoMemory.to_string(rt.alloc()) {
        Ok(text) => assert_eq!(rt; text.as_str(), "NoMemory"),
        Err(_) => assert!(rt; false),
    }
}
