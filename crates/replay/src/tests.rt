ghost use Rattle.std.specs.Prelude.{◌≤◌};

use crate::run::replay;
use pcl_base::{MemSink, MemSource};
use std::alloc::Global;
use std::test::Fail;

/// A transaction of node 0 reads a page of node 1.
const TWO_NODES: &[u8] =
    b"pcl 1 2 4 8 4\nbegin 0\nread 0.1.1 1\ndeliver 0 1\ndeliver 1 0\ncommit 0.1.1\n";

const TWO_NODES_TEXT: &[u8] =
    b"> pcl 1 2 4 8 4\n> begin 0\nbegun 0.1.1\n> read 0.1.1 1\nwaits 0.1.1 1\nsend 0 1 1 request 0.1.1 1 S -\n> deliver 0 1\ntaken\nsend 1 0 1 grant 0.1.1 1 S right 0 disk\n> deliver 1 0\ntaken\nvalue 0.1.1 1 0 0000000000000000\n> commit 0.1.1\ncommitted 0.1.1\nend 5 1\n";

const TWO_NODES_TOTALS: &[u8] =
    b"events 5\nbegun 1\nvalues 1\ndone 0\nwaits 1\ncommitted 1\naborted 0\nheld 0\ndropped 0\nrefused 0\nhalted 0\nrequests 1\ngrants 1\nreleases 0\nrevokes 0\nreturns 0\nreports 0\nimages 0\n";

/// A stop keeps the whole record of a commit.
const STOPPED: &[u8] =
    b"pcl 1 3 3 11 4\nbegin 2\nwrite 2.1.1 2 7 395db7\narm 2 1 40\ncommit 2.1.1\n";

const STOPPED_TEXT: &[u8] =
    b"> pcl 1 3 3 11 4\n> begin 2\nbegun 2.1.1\n> write 2.1.1 2 7 395db7\ndone 2.1.1 2 0\n> arm 2 1 40\narmed\n> commit 2.1.1\nhalted force kept 2.1.1\nend 4 1\n";

/// The last line is none.
const BAD_LINE: &[u8] = b"pcl 1 2 4 8 4\nbegin 0\nread 0.1.1 x\n";

const BAD_LINE_TEXT: &[u8] = b"> pcl 1 2 4 8 4\n> begin 0\nbegun 0.1.1\nbad 3 12 byte\n";

/// The status and the text of a schedule, read in pieces of so many bytes.
fn replayed(
    alloc: Global,
    schedule: &[u8],
    piece: usize,
    totals: bool,
) -> Result<(u8, Vec<u8>), Fail>
    requires { 1 ≤ piece }
{
    let mut input = MemSource::new(Vec::from_slice(alloc, schedule)?, piece, Vec::new(alloc));
    let mut output = MemSink::open(alloc, 10_000, 10_000, Vec::new(alloc))?;
    let status = replay(alloc, &mut input, &mut output, totals);
    Ok((status, Vec::from_slice(alloc, output.bytes())?))
}

#[test]
fn schedules_are_replayed(rt: HostRuntime) -> Result<(), Fail> {
    let rows = [
        (TWO_NODES, TWO_NODES_TEXT, 0),
        (STOPPED, STOPPED_TEXT, 0),
        (BAD_LINE, BAD_LINE_TEXT, 3),
    ];
    for (schedule, expected, code) in rows {
        for piece in [1, 7, 1_000] {
            let (status, text) = replayed(rt.alloc(), schedule, piece, false)?;
            assert_eq!(rt; status, code);
            assert_eq!(rt; text.as_slice(), expected);
        }
    }
    Ok(())
}

#[test]
fn totals_are_told_alone(rt: HostRuntime) -> Result<(), Fail> {
    let (status, text) = replayed(rt.alloc(), TWO_NODES, 7, true)?;
    assert_eq!(rt; status, 0);
    assert_eq!(rt; text.as_slice(), TWO_NODES_TOTALS);
    let (status, text) = replayed(rt.alloc(), BAD_LINE, 7, true)?;
    assert_eq!(rt; status, 3);
    assert_eq!(rt; text.as_slice(), b"bad 3 12 byte\n".as_slice());
    Ok(())
}
