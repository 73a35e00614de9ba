use std::fs::{self, OpenFile, OpenOptions};
use std::io::{self, Read, Seek, SeekFrom, Write};
use std::rt::Files;

/// The bytes that are moved at a time where a log is cut.
const PIECE: usize = 4_096;

/// A file for reading and writing, made empty where it is missing.
pub(crate) fn opened<R: Files>(rt: &R, path: &str) -> io::Result<R::File> {
    OpenOptions::new()
        .read(true)
        .write(true)
        .create(true)
        .open(rt, path)
}

/// Reads the bytes of a file from a place on. Bytes past its end are zero.
pub(crate) fn read_padded<R: Files>(
    rt: &R,
    path: &str,
    place: u64,
    out: &mut [u8],
) -> io::Result<()> {
    let mut file = opened(rt, path)?;
    file.seek(SeekFrom::Start(place))?;
    let mut done = 0;
    for _ in 0..out.len() {
        let count = file.read(&mut out[done..])?;
        if count == 0 {
            break;
        }
        done += count;
    }
    out[done..].fill(0);
    Ok(())
}

/// Reads the bytes of a file from a place on, all of which must be there.
pub(crate) fn read_whole<R: Files>(
    rt: &R,
    path: &str,
    place: u64,
    out: &mut [u8],
) -> io::Result<()> {
    let mut file = opened(rt, path)?;
    file.seek(SeekFrom::Start(place))?;
    file.read_exact(out)
}

/// The length of a file.
pub(crate) fn length<R: Files>(rt: &R, path: &str) -> io::Result<u64> {
    let file = opened(rt, path)?;
    Ok(file.metadata()?.len())
}

/// Writes bytes into a file from a place on, and syncs it.
pub(crate) fn write<R: Files>(rt: &R, path: &str, place: SeekFrom, bytes: &[u8]) -> io::Result<()> {
    let mut file = opened(rt, path)?;
    file.seek(place)?;
    file.write_all(bytes)?;
    file.sync_all()
}

/// Sets the length of a file, and syncs it.
pub(crate) fn trim<R: Files>(rt: &R, path: &str, keep: u64) -> io::Result<()> {
    let file = opened(rt, path)?;
    file.set_len(keep)?;
    file.sync_all()
}

/// Writes the bytes of a file from a place on to a second file, syncs that, and puts it in the
/// place of the first.
pub(crate) fn cut<R: Files>(rt: &R, path: &str, second: &str, count: u64) -> io::Result<()> {
    let mut from = opened(rt, path)?;
    from.seek(SeekFrom::Start(count))?;
    let mut to = opened(rt, second)?;
    to.set_len(0)?;
    let mut piece = [0u8; PIECE];
    for _ in 0..u64::MAX {
        let read = from.read(&mut piece)?;
        if read == 0 {
            break;
        }
        to.write_all(&piece[..read])?;
    }
    to.sync_all()?;
    fs::rename(rt, second, path)
}
