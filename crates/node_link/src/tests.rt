ghost use Rattle.std.specs.Prelude.{◌≡◌, ◌<◌, ◌^◌, ◌-◌, Some, IfOk};
ghost use Rattle.disk_model.specs.Disk.{HasSizes};
ghost use Rattle.disk_model.specs.Memory.{bytes_in, rooms_in};

use super::*;
use disk_model::MemStorage;
use pcl_base::{Config, MemSink, MemSource, NoMemory};
use std::alloc::Global;
use std::rt::HostRuntime;
use std::test::Fail;

/// One node with a page of eight bytes.
fn one() -> Config
    ensures { result.nodes ≡ 1 }
{
    Config::new(1, 1, 8, 2).unwrap()
}

/// Two nodes with three pages of eight bytes.
fn two() -> Config
    ensures { result.nodes ≡ 2 }
{
    Config::new(2, 3, 8, 2).unwrap()
}

/// Fresh storage of these sizes.
fn fresh(alloc: Global, config: &Config) -> Result<MemStorage, NoMemory>
    ensures { IfOk result (λ d. HasSizes config.now (Some d.pages) (Some (bytes_in d.logs)) (Some (rooms_in d.logs))) }
{
    MemStorage::open(alloc, config)
}

/// What node 0 writes over a storage, with the status. The source gives three bytes a call, and the sink takes
/// five; these of their calls fail.
fn served(
    alloc: Global,
    config: &Config,
    limit: u64,
    input: &[u8],
    storage: &mut MemStorage,
    source_fails: &[u64],
    sink_fails: &[u64],
) -> Result<(u8, MemSink), NoMemory>
    requires me { 0 < config.now.nodes }
    requires limit { limit < 2 ^ 64 - 1 }
    requires sizes { HasSizes config.now (Some storage.old.pages) (Some (bytes_in storage.old.logs)) (Some (rooms_in storage.old.logs)) }
{
    let bytes = Vec::from_slice(alloc, input)?;
    let source_fails = Vec::from_slice(alloc, source_fails)?;
    let sink_fails = Vec::from_slice(alloc, sink_fails)?;
    let mut source = MemSource::new(bytes, 3, source_fails);
    let mut sink = MemSink::open(alloc, 4_096, 5, sink_fails)?;
    let status = serve(alloc, config, 0, limit, &mut source, &mut sink, storage);
    Ok((status, sink))
}

/// View 1 of one node, and the line `begin 0`.
const BEGINS: &[u8; 31] = b"\0\0\0\x0fV\0\0\0\x01\x01\0\0\0\0\x01\0\0\0\x01\0\0\0\x08Lbegin 0";

// A node alone installs a view, and a transaction of it writes a page and commits.
#[test]
fn a_node_serves_frames(rt: HostRuntime) -> Result<(), Fail> {
    let alloc = rt.alloc();
    let config = one();
    let mut storage = fresh(alloc, &config)?;
    let input =
        b"\0\0\0\x0fV\0\0\0\x01\x01\0\0\0\0\x01\0\0\0\x01\0\0\0\x08Lbegin 0\0\0\0\x13Lwrite 0.1.1 0 0 01\0\0\0\x0dLcommit 0.1.1";
    let (status, sink) = served(alloc, &config, 9, input, &mut storage, &[], &[])?;
    assert_eq!(rt; status, 0);
    assert_eq!(rt;
        sink.bytes(),
        b"\0\0\0\x17Rinstalled 1\nserving 0\n\0\0\0\x0dRbegun 0.1.1\n\0\0\0\x10Rdone 0.1.1 0 0\n\0\0\0\x11Rcommitted 0.1.1\n".as_slice()
    );
    Ok(())
}

// A line of another node is refused, and a bad frame ends serving.
#[test]
fn a_bad_frame_ends(rt: HostRuntime) -> Result<(), Fail> {
    let alloc = rt.alloc();
    let config = two();
    let mut storage = fresh(alloc, &config)?;
    let input = b"\0\0\0\x08Lbegin 1\0\0\0\x01X";
    let (status, sink) = served(alloc, &config, 9, input, &mut storage, &[], &[])?;
    assert_eq!(rt; status, 3);
    assert_eq!(rt;
        sink.bytes(),
        b"\0\0\0\x12Rrefused 1 NoNode\n\0\0\0\x0eEbad 2 5 kind\n".as_slice()
    );
    Ok(())
}

// A byte behind the last frame that may be read ends serving; none does it at the end.
#[test]
fn frames_are_limited(rt: HostRuntime) -> Result<(), Fail> {
    let alloc = rt.alloc();
    let config = one();
    let mut storage = fresh(alloc, &config)?;
    let (status, sink) = served(alloc, &config, 1, BEGINS, &mut storage, &[], &[])?;
    assert_eq!(rt; status, 7);
    assert_eq!(rt;
        sink.bytes(),
        b"\0\0\0\x17Rinstalled 1\nserving 0\n\0\0\0\x08Elong 2\n".as_slice()
    );
    let mut storage = fresh(alloc, &config)?;
    let (status, _sink) = served(alloc, &config, 2, BEGINS, &mut storage, &[], &[])?;
    assert_eq!(rt; status, 0);
    Ok(())
}

// A source and a sink that fail.
#[test]
fn ends_that_fail(rt: HostRuntime) -> Result<(), Fail> {
    let alloc = rt.alloc();
    let config = one();
    let mut storage = fresh(alloc, &config)?;
    let (status, sink) = served(alloc, &config, 9, BEGINS, &mut storage, &[9], &[])?;
    assert_eq!(rt; status, 4);
    assert_eq!(rt;
        sink.bytes(),
        b"\0\0\0\x17Rinstalled 1\nserving 0\n".as_slice()
    );
    let mut storage = fresh(alloc, &config)?;
    let (status, sink) = served(alloc, &config, 9, BEGINS, &mut storage, &[], &[2])?;
    assert_eq!(rt; status, 5);
    assert_eq!(rt; sink.bytes(), b"\0\0\0\x17R".as_slice());
    Ok(())
}

// A failed call of the storage ends serving, and the last frame names it.
#[test]
fn a_call_that_fails(rt: HostRuntime) -> Result<(), Fail> {
    let alloc = rt.alloc();
    let config = one();
    let mut storage = fresh(alloc, &config)?;
    storage.fail_read(0, 1);
    let (status, sink) = served(alloc, &config, 9, BEGINS, &mut storage, &[], &[])?;
    assert_eq!(rt; status, 6);
    assert_eq!(rt; sink.bytes(), b"\0\0\0\x0cEhalted log\n".as_slice());
    Ok(())
}

// A peer grants a version that isn't on disk.
#[test]
fn a_page_that_differs(rt: HostRuntime) -> Result<(), Fail> {
    let alloc = rt.alloc();
    let config = two();
    let mut storage = fresh(alloc, &config)?;
    let input =
        b"\0\0\0\x19V\0\0\0\x01\x01\x01\0\x01\0\0\0\x01\0\0\0\x01\0\0\0\x01\0\0\0\x01\0\0\0\x08Lbegin 0\0\0\0\x0dLread 0.1.1 1\0\0\0\x1fM\x01\0\0\0\x01\x02\0\0\0\0\x01\0\0\0\x01\0\0\0\x01\x01\0\0\0\0\0\0\0\0\x01\x03";
    let (status, sink) = served(alloc, &config, 9, input, &mut storage, &[], &[])?;
    assert_eq!(rt; status, 10);
    let last = b"\0\0\0\x0fEdiffers 1 1 0\n";
    assert_eq!(rt; sink.bytes().ends_with(last), true);
    Ok(())
}
