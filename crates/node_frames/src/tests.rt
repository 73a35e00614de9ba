ghost use Rattle.std.specs.Prelude.{◌≡◌, ◌≤◌, length, IfOk};

use super::*;
use pcl_base::{Body, Call, Config, Failed, Halt, MemSink, MemSource, Reply};
use schedule_text::LineReason;
use std::alloc::{AllocError, Global};
use std::process::Abort;
use std::rt::HostRuntime;

// Two nodes with four pages of eight bytes.
fn two() -> Config
    ensures nodes { result.nodes ≡ 2 }
    ensures pages { result.pages ≡ 4 }
{
    Config::new(2, 4, 8, 2).unwrap()
}

// What node 0 reads from the body of a frame.
fn read(alloc: Global, body: &[u8]) -> Result<Frame, FrameFault>
    requires { length body.now ≤ 134_217_728 }
{
    decode(alloc, &two(), 0, body)
}

fn check_bad(rt: &impl Abort, alloc: Global, body: &[u8], place: usize, reason: FrameReason)
    requires { length body.now ≤ 134_217_728 }
{
    match read(alloc, body) {
        Ok(_) => assert!(rt; false),
        Err(fault) => assert_eq!(rt; fault, FrameFault::Bad { place, reason }),
    }
}

// A frame of each kind.
#[test]
fn a_line_is_read(rt: HostRuntime) {
    let frame = read(rt.alloc(), b"Lbegin 15").expect(&rt, "a frame");
    match &frame {
        Frame::Line { event } => assert!(rt; *event == Event::Begin { node: 15 }),
        _ => assert!(rt; false),
    }
}

#[test]
fn a_message_is_read(rt: HostRuntime) {
    let body = b"M\x01\0\0\0\x07\x04\0\0\0\x02";
    let frame = read(rt.alloc(), body).expect(&rt, "a frame");
    match &frame {
        Frame::Message { from, message } => {
            assert_eq!(rt; *from, 1);
            assert_eq!(rt; message.epoch, 7);
        }
        _ => assert!(rt; false),
    }
}

#[test]
fn a_view_is_read(rt: HostRuntime) {
    let body = b"V\0\0\0\x02\x01\0\0\0\0\0\0\x01\0\0\0\x02\0\0\0\x01\0\0\0\x01";
    let frame = read(rt.alloc(), body).expect(&rt, "a frame");
    match &frame {
        Frame::View { view } => assert_eq!(rt; view.epoch(), 2),
        _ => assert!(rt; false),
    }
}

// Frames that are bad.
#[test]
fn bad_frames(rt: HostRuntime) {
    let alloc = rt.alloc();
    check_bad(&rt, alloc, b"X", 5, FrameReason::Kind);
    check_bad(
        &rt,
        alloc,
        b"Lbegin",
        11,
        FrameReason::Line(LineReason::Short),
    );
    check_bad(
        &rt,
        alloc,
        b"Lcrash 0",
        6,
        FrameReason::Line(LineReason::Byte),
    );
    check_bad(
        &rt,
        alloc,
        b"M\0\0\0\0\x01",
        6,
        FrameReason::Field(FieldFault::BadField),
    );
    check_bad(
        &rt,
        alloc,
        b"M\x01\0\0\0\x01",
        11,
        FrameReason::Field(FieldFault::Short),
    );
    check_bad(
        &rt,
        alloc,
        b"V\0\0\0\x02\0\x01",
        10,
        FrameReason::Field(FieldFault::BadField),
    );
}

// A frame of each kind that is written.
#[test]
fn written_frames(rt: HostRuntime) {
    let replies = [Reply::Installed { epoch: 1 }, Reply::Taken];
    let frame = encode_replies(rt.alloc(), replies.as_slice()).expect(&rt, "memory");
    assert_eq!(rt;
        frame.as_slice(),
        b"\0\0\0\x13Rinstalled 1\ntaken\n".as_slice()
    );
    let message = Message {
        epoch: 7,
        body: Body::Revoke { page: 2 },
    };
    let frame = encode_send(rt.alloc(), 1, &message).expect(&rt, "memory");
    assert_eq!(rt;
        frame.as_slice(),
        b"\0\0\0\x0bM\x01\0\0\0\x07\x04\0\0\0\x02".as_slice()
    );
}

// The last frame.
#[test]
fn last_frames(rt: HostRuntime) {
    let alloc = rt.alloc();
    let bad = encode_bad(alloc, 1, 5, FrameReason::Kind).expect(&rt, "memory");
    assert_eq!(rt; bad.as_slice(), b"\0\0\0\x0eEbad 1 5 kind\n".as_slice());
    let differs = encode_differs(alloc, 1, 1, 0).expect(&rt, "memory");
    assert_eq!(rt;
        differs.as_slice(),
        b"\0\0\0\x0fEdiffers 1 1 0\n".as_slice()
    );
    let long = encode_long(alloc, 2).expect(&rt, "memory");
    assert_eq!(rt; long.as_slice(), b"\0\0\0\x08Elong 2\n".as_slice());
    let halt = Halt {
        call: Call::Force,
        kept: None,
    };
    let halted = encode_halt(alloc, halt).expect(&rt, "memory");
    assert_eq!(rt; halted.as_slice(), b"\0\0\0\x0eEhalted force\n".as_slice());
}

// A source of these bytes that gives three of them a call; the calls in `fail` fail.
fn source_of(alloc: Global, bytes: &[u8], fail: &[u64]) -> Result<MemSource, AllocError> {
    let bytes = Vec::from_slice(alloc, bytes)?;
    let fail = Vec::from_slice(alloc, fail)?;
    Ok(MemSource::new(bytes, 3, fail))
}

// The frames of an input come one after the other, and then its end.
#[test]
fn frames_in_pieces(rt: HostRuntime) {
    let alloc = rt.alloc();
    let bytes = b"\0\0\0\x08Lbegin 0\0\0\0\x01X";
    let mut source = source_of(alloc, bytes, &[]).expect(&rt, "memory");
    let mut body = Vec::new(alloc);
    assert_eq!(rt; read_frame(&mut source, &mut body), Ok(true));
    assert_eq!(rt; body.as_slice(), b"Lbegin 0".as_slice());
    assert_eq!(rt; read_frame(&mut source, &mut body), Ok(true));
    assert_eq!(rt; body.as_slice(), b"X".as_slice());
    assert_eq!(rt; read_frame(&mut source, &mut body), Ok(false));
    assert_eq!(rt; has_more(&mut source), Ok(false));
}

fn check_front(rt: &impl Abort, alloc: Global, bytes: &[u8], fail: &[u64], fault: InputFault) {
    let mut source = source_of(alloc, bytes, fail).expect(rt, "memory");
    let mut body = Vec::new(alloc);
    assert_eq!(rt; read_frame(&mut source, &mut body), Err(fault));
}

// Bad fronts, and a source that fails within a frame.
#[test]
fn bad_fronts(rt: HostRuntime) {
    let alloc = rt.alloc();
    let cut = |place| InputFault::Bad {
        place,
        reason: FrameReason::Cut,
    };
    check_front(&rt, alloc, b"\0\0\0", &[], cut(4));
    check_front(&rt, alloc, b"\0\0\0\x02X", &[], cut(6));
    let length = InputFault::Bad {
        place: 1,
        reason: FrameReason::Length,
    };
    check_front(&rt, alloc, b"\x08\0\0\x01X", &[], length);
    // The length comes in two calls, and it is judged before the third.
    check_front(&rt, alloc, b"\x08\0\0\x01X", &[3], length);
    check_front(&rt, alloc, b"\0\0\0\x01X", &[3], InputFault::Source);
}

// A frame goes out in pieces, up to the room of the sink.
#[test]
fn frames_go_out(rt: HostRuntime) {
    let alloc = rt.alloc();
    let frame = encode_replies(alloc, &[]).expect(&rt, "memory");
    let mut sink = MemSink::open(alloc, 8, 2, Vec::new(alloc)).expect(&rt, "memory");
    assert_eq!(rt; write_frame(&mut sink, &frame), Ok(()));
    assert_eq!(rt; write_frame(&mut sink, &frame), Err(Failed));
    assert_eq!(rt; sink.bytes(), b"\0\0\0\x01R\0\0\0".as_slice());
}
