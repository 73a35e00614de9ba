ghost use Rattle.std.specs.Prelude.{◌≡◌};

use super::*;
use node_frames::{Frame, encode_long};
use node_parts::{NodeEvent, Outputs};
use pcl_base::{Config, MemSink, MemSource, NoMemory, Reason, Reply};
use std::alloc::Global;
use std::rt::HostRuntime;
use std::test::Fail;

/// Two nodes with three pages of eight bytes.
fn two() -> Config
    ensures { result.nodes ≡ 2 }
{
    Config::new(2, 3, 8, 2).unwrap()
}

/// A source of these bytes that gives three of them a call.
fn source_of(alloc: Global, bytes: &[u8]) -> Result<MemSource, NoMemory> {
    let bytes = Vec::from_slice(alloc, bytes)?;
    Ok(MemSource::new(bytes, 3, Vec::new(alloc)))
}

/// An empty sink for so many bytes.
fn sink_for(alloc: Global, capacity: usize) -> Result<MemSink, NoMemory> {
    MemSink::open(alloc, capacity, 5, Vec::new(alloc))
}

// Frames are read one after the other, and what they ask of a node.
#[test]
fn frames_are_read(rt: HostRuntime) -> Result<(), Fail> {
    let alloc = rt.alloc();
    let config = two();
    let mut source = source_of(alloc, b"\0\0\0\x08Lbegin 1\0\0\0\x08Lbegin 0")?;
    match next_frame(alloc, &config, 0, &mut source) {
        Ok(Some(frame)) => assert!(rt; asked_of(0, frame).is_none()),
        _ => assert!(rt; false),
    }
    match next_frame(alloc, &config, 0, &mut source) {
        Ok(Some(frame)) => match asked_of(0, frame) {
            Some(NodeEvent::Begin) => {}
            _ => assert!(rt; false),
        },
        _ => assert!(rt; false),
    }
    match next_frame(alloc, &config, 0, &mut source) {
        Ok(None) => {}
        _ => assert!(rt; false),
    }
    Ok(())
}

// The frame of a step, up to the room of the sink.
#[test]
fn steps_are_written(rt: HostRuntime) -> Result<(), Fail> {
    let alloc = rt.alloc();
    let mut out = Outputs::open(alloc);
    out.reserve(1, 1)?;
    out.reply(Reply::Refused {
        reason: Reason::NoNode,
    });
    let mut sink = sink_for(alloc, 30)?;
    assert_eq!(rt; write_step(alloc, &out, &mut sink), Ok(()));
    assert_eq!(rt; sink.bytes(), b"\0\0\0\x12Rrefused 1 NoNode\n".as_slice());
    assert_eq!(rt; write_step(alloc, &out, &mut sink), Err(End::Sink));
    Ok(())
}

// A last frame comes with its status.
#[test]
fn last_frames_are_written(rt: HostRuntime) -> Result<(), Fail> {
    let alloc = rt.alloc();
    let mut sink = sink_for(alloc, 15)?;
    let end = write_last(encode_long(alloc, 2), 7, &mut sink);
    assert_eq!(rt; end, End::Decided { status: 7 });
    assert_eq!(rt; sink.bytes(), b"\0\0\0\x08Elong 2\n".as_slice());
    let end = write_last(encode_long(alloc, 2), 7, &mut sink);
    assert_eq!(rt; end.status(), 5);
    Ok(())
}

// One byte behind the last frame that may be read ends serving with 7, and none with 0.
#[test]
fn limits_end_serving(rt: HostRuntime) -> Result<(), Fail> {
    let alloc = rt.alloc();
    let mut sink = sink_for(alloc, 100)?;
    let mut source = source_of(alloc, b"X")?;
    assert_eq!(rt; end_at_limit(alloc, 2, &mut source, &mut sink).status(), 7);
    assert_eq!(rt; end_at_limit(alloc, 2, &mut source, &mut sink).status(), 0);
    assert_eq!(rt; sink.bytes(), b"\0\0\0\x08Elong 2\n".as_slice());
    Ok(())
}
