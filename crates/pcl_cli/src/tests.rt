ghost use Rattle.std.specs.Prelude.{◌≤◌};

use crate::words::run;
use file_store::FileStore;
use pcl_base::{MemSink, MemSource};
use std::rt::HostRuntime;
use std::test::Fail;
use std::{env, fs, process};

const PLAIN_PATH: &[u8] =
    b"pcl 1 1 1 8 4\nbegin 0\nwrite 0.1.1 0 2 beef\nread 0.1.1 0\ncommit 0.1.1\nbegin 0\nread 0.1.2 0\ncommit 0.1.2\n";

const TEXT: &[u8] =
    b"> pcl 1 1 1 8 4\n> begin 0\nbegun 0.1.1\n> write 0.1.1 0 2 beef\ndone 0.1.1 0 0\n> read 0.1.1 0\nvalue 0.1.1 0 0 0000beef00000000\n> commit 0.1.1\ncommitted 0.1.1\n> begin 0\nbegun 0.1.2\n> read 0.1.2 0\nvalue 0.1.2 0 1 0000beef00000000\n> commit 0.1.2\ncommitted 0.1.2\nend 7 2\n";

const TOTALS: &[u8] =
    b"events 7\nbegun 2\nvalues 2\ndone 1\nwaits 0\ncommitted 2\naborted 0\nheld 0\ndropped 0\nrefused 0\nhalted 0\nrequests 0\ngrants 0\nreleases 0\nrevokes 0\nreturns 0\nreports 0\nimages 0\n";

/// Three transactions use one page, and the one that writes it waits for the others.
const WAITING: &[u8] =
    b"pcl 1 1 1 8 4\nbegin 0\nbegin 0\nbegin 0\nread 0.1.1 0\nread 0.1.2 0\nwrite 0.1.3 0 0 01\ncommit 0.1.1\ncommit 0.1.2\ncommit 0.1.3\n";

const WAITING_TEXT: &[u8] =
    b"> pcl 1 1 1 8 4\n> begin 0\nbegun 0.1.1\n> begin 0\nbegun 0.1.2\n> begin 0\nbegun 0.1.3\n> read 0.1.1 0\nvalue 0.1.1 0 0 0000000000000000\n> read 0.1.2 0\nvalue 0.1.2 0 0 0000000000000000\n> write 0.1.3 0 0 01\nwaits 0.1.3 0\n> commit 0.1.1\ncommitted 0.1.1\n> commit 0.1.2\ncommitted 0.1.2\ndone 0.1.3 0 0\n> commit 0.1.3\ncommitted 0.1.3\nend 9 3\n";

/// The folder of a store that is never used.
const UNUSED: &str = "pcl-unused";

/// The status and the text of some words over an input, in pieces of so many bytes, where the calls of
/// these numbers fail; a call of number 0 never comes. The store is in this folder.
fn ran(
    rt: HostRuntime,
    words: &[&str],
    folder: &str,
    input: &[u8],
    piece: usize,
    failing_read: u64,
    failing_write: u64,
) -> Result<(u8, Vec<u8>), Fail>
    requires { 1 ≤ piece }
{
    let alloc = rt.alloc();
    let mut given = Vec::new(alloc);
    for word in words {
        given.push(String::from_str(alloc, word)?)?;
    }
    let mut source = MemSource::new(
        Vec::from_slice(alloc, input)?,
        piece,
        vec![in alloc; failing_read]?,
    );
    let mut sink = MemSink::open(alloc, 1_000_000, piece, vec![in alloc; failing_write]?)?;
    let mut store = FileStore::open(alloc, rt, folder)?;
    let status = run(alloc, &given, &mut source, &mut sink, &mut store);
    Ok((status, Vec::from_slice(alloc, sink.bytes())?))
}

/// The status and the text that the word `replay` gives.
fn replayed(
    rt: HostRuntime,
    input: &[u8],
    piece: usize,
    failing_read: u64,
    failing_write: u64,
) -> Result<(u8, Vec<u8>), Fail>
    requires { 1 ≤ piece }
{
    ran(
        rt,
        &["replay"],
        UNUSED,
        input,
        piece,
        failing_read,
        failing_write,
    )
}

#[test]
fn totals_of_the_plain_path(rt: HostRuntime) -> Result<(), Fail> {
    let (status, text) = ran(rt, &["summary"], UNUSED, PLAIN_PATH, 7, 0, 0)?;
    assert_eq!(rt; status, 0);
    assert_eq!(rt; text.as_slice(), TOTALS);
    Ok(())
}

#[test]
fn schedules_in_pieces(rt: HostRuntime) -> Result<(), Fail> {
    for (input, expected) in [(PLAIN_PATH, TEXT), (WAITING, WAITING_TEXT)] {
        for piece in [1, 7, 1_000] {
            let (status, text) = replayed(rt, input, piece, 0, 0)?;
            assert_eq!(rt; status, 0);
            assert_eq!(rt; text.as_slice(), expected);
        }
    }
    Ok(())
}

#[test]
fn source_fails_at_each_call(rt: HostRuntime) -> Result<(), Fail> {
    let rows = [
        (PLAIN_PATH, TEXT, 7, 16),
        (PLAIN_PATH, TEXT, 1_000, 2),
        (WAITING, WAITING_TEXT, 7, 19),
        (WAITING, WAITING_TEXT, 1_000, 2),
    ];
    for (input, expected, piece, calls) in rows {
        for call in 1..calls + 1 {
            let (status, text) = replayed(rt, input, piece, call, 0)?;
            assert_eq!(rt; status, 4);
            assert!(rt; expected.starts_with(text.as_slice()));
        }
    }
    Ok(())
}

#[test]
fn sink_fails_at_each_call(rt: HostRuntime) -> Result<(), Fail> {
    let rows = [
        (PLAIN_PATH, TEXT, 7, 43),
        (PLAIN_PATH, TEXT, 1_000, 2),
        (WAITING, WAITING_TEXT, 7, 53),
        (WAITING, WAITING_TEXT, 1_000, 2),
    ];
    for (input, expected, piece, calls) in rows {
        for call in 1..calls + 1 {
            let (status, text) = replayed(rt, input, piece, 0, call)?;
            assert_eq!(rt; status, 5);
            assert!(rt; expected.starts_with(text.as_slice()));
        }
    }
    Ok(())
}

const FOUR_LINES: &[u8] = b"pcl 1 2 4 8 4\nbegin 1\nbegin 1\nread 1.1.1 1\nwrite 1.1.2 3 0 5f\n";

/// The status and the text of some words without input, where the sink takes so many bytes a call
/// and the call of this number fails.
fn made(
    rt: HostRuntime,
    words: &[&str],
    piece: usize,
    failing_write: u64,
) -> Result<(u8, Vec<u8>), Fail>
    requires { 1 ≤ piece }
{
    ran(rt, words, UNUSED, b"", piece, 0, failing_write)
}

#[test]
fn generated_schedule(rt: HostRuntime) -> Result<(), Fail> {
    let (status, text) = made(rt, &["make", "1", "4", "2", "4", "8", "4"], 1_000_000, 0)?;
    assert_eq!(rt; status, 0);
    assert_eq!(rt; text.as_slice(), FOUR_LINES);
    Ok(())
}

#[test]
fn sink_fails_while_a_schedule_is_made(rt: HostRuntime) -> Result<(), Fail> {
    for call in 1..10 {
        let (status, text) = made(rt, &["make", "1", "4", "2", "4", "8", "4"], 7, call)?;
        assert_eq!(rt; status, 5);
        assert!(rt; FOUR_LINES.starts_with(text.as_slice()));
    }
    Ok(())
}

/// The number of lines and of crashes of a schedule of these words, made twice.
fn lines_and_crashes(rt: HostRuntime, words: &[&str]) -> Result<(usize, usize), Fail> {
    let (_, text) = made(rt, words, 65_536, 0)?;
    let (_, again) = made(rt, words, 65_536, 0)?;
    if text != again {
        return Err("another text".into());
    }
    let lines = text.iter().filter(|b| **b == b'\n').count();
    let crashes = text
        .split(|b| *b == b'\n')
        .filter(|line| line.starts_with(b"crash "))
        .count();
    Ok((lines, crashes))
}

#[test]
fn realistic_run(rt: HostRuntime) -> Result<(), Fail> {
    let found = lines_and_crashes(rt, &["make", "7", "5000", "4", "1000", "512", "64"])?;
    assert_eq!(rt; found, (5_001, 2));
    Ok(())
}

#[test]
fn long_generated_run(rt: HostRuntime) -> Result<(), Fail> {
    let (lines, _) = lines_and_crashes(rt, &["make", "3", "20000", "8", "1000", "512", "64"])?;
    assert_eq!(rt; lines, 20_001);
    Ok(())
}

#[test]
fn words_that_make_nothing(rt: HostRuntime) -> Result<(), Fail> {
    let table: [[&str; 7]; 14] = [
        ["make", "65536", "4", "2", "4", "8", "4"],
        ["make", "1", "0", "2", "4", "8", "4"],
        ["make", "1", "200000", "2", "4", "8", "4"],
        ["make", "1", "4", "0", "4", "8", "4"],
        ["make", "1", "4", "17", "4", "8", "4"],
        ["make", "1", "4", "2", "0", "8", "4"],
        ["make", "1", "4", "2", "65537", "8", "4"],
        ["make", "1", "4", "2", "4", "7", "4"],
        ["make", "1", "4", "2", "4", "4097", "4"],
        ["make", "1", "4", "2", "4", "8", "1"],
        ["make", "01", "4", "2", "4", "8", "4"],
        ["make", "+1", "4", "2", "4", "8", "4"],
        ["make", "", "4", "2", "4", "8", "4"],
        ["Make", "1", "4", "2", "4", "8", "4"],
    ];
    for words in table {
        let (status, text) = made(rt, words.as_slice(), 1_000_000, 0)?;
        assert_eq!(rt; status, 2);
        assert!(rt; text.starts_with(b"usage: "));
    }
    let (status, _) = made(rt, &["make", "1", "4", "2", "4", "8"], 1_000_000, 0)?;
    assert_eq!(rt; status, 2);
    Ok(())
}

/// Frames of view 1 of one node, and of a transaction that writes a page and commits.
const FRAMES: &[u8] =
    b"\0\0\0\x0fV\0\0\0\x01\x01\0\0\0\0\x01\0\0\0\x01\0\0\0\x08Lbegin 0\0\0\0\x13Lwrite 0.1.1 0 0 01\0\0\0\x0dLcommit 0.1.1";

const ANSWERS: &[u8] =
    b"\0\0\0\x17Rinstalled 1\nserving 0\n\0\0\0\x0dRbegun 0.1.1\n\0\0\0\x10Rdone 0.1.1 0 0\n\0\0\0\x11Rcommitted 0.1.1\n";

/// Frames of view 2, in which the node is born anew, and of a transaction that reads the page.
const FRAMES_AGAIN: &[u8] =
    b"\0\0\0\x0fV\0\0\0\x02\x01\0\0\0\0\x02\0\0\0\x02\0\0\0\x08Lbegin 0\0\0\0\x0dLread 0.2.1 0\0\0\0\x0dLcommit 0.2.1";

const ANSWERS_AGAIN: &[u8] =
    b"\0\0\0\x17Rinstalled 2\nserving 0\n\0\0\0\x0dRbegun 0.2.1\n\0\0\0\x22Rvalue 0.2.1 0 1 0100000000000000\n\0\0\0\x11Rcommitted 0.2.1\n";

#[test]
fn a_node_stops_and_starts_again_over_a_folder(rt: HostRuntime) -> Result<(), Fail> {
    let parent = env::temp_dir(&rt)?;
    let id = process::id(rt.process());
    let folder = format!(in rt.alloc(); "{}/pcl-node-{id}", parent.display())?;
    let words = ["node", "0", "1", "1", "8", "2"];
    for (frames, answers) in [(FRAMES, ANSWERS), (FRAMES_AGAIN, ANSWERS_AGAIN)] {
        let (status, text) = ran(rt, words.as_slice(), folder.as_str(), frames, 5, 0, 0)?;
        assert_eq!(rt; status, 0);
        assert_eq!(rt; text.as_slice(), answers);
    }
    let log = format!(in rt.alloc(); "{folder}/log0")?;
    assert!(rt; 0 < fs::metadata(&rt, log.as_str())?.len());
    fs::remove_dir_all(&rt, folder.as_str())?;
    Ok(())
}
