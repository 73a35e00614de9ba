use super::*;
use disk_model::Storage;
use pcl_base::Failed;
use std::rt::HostRuntime;
use std::test::Fail;
use std::{env, fs, process};

// A folder of the test's own, which isn't there yet.
fn folder(rt: HostRuntime, name: &str) -> Result<String, Fail> {
    let parent = env::temp_dir(&rt)?;
    let id = process::id(rt.process());
    let path = format!(in rt.alloc(); "{}/pcl-{name}-{id}", parent.display())?;
    Ok(path)
}

// A page is read as it was written; one before it in the file, and one beyond its end, are zero
// bytes.
#[test]
fn pages_of_a_folder(rt: HostRuntime) -> Result<(), Fail> {
    let path = folder(rt, "pages")?;
    let mut store = FileStore::open(rt.alloc(), rt, path.as_str())?;
    let written = [7u8; 24];
    let zero = [0u8; 24];
    let mut read = [1u8; 24];
    assert_eq!(rt; store.room(0, 10), Ok(()));
    assert_eq!(rt; store.read_page(0, 3, &mut read), Ok(()));
    assert_eq!(rt; read, zero);
    assert_eq!(rt; store.write_page(0, 3, &written), Ok(()));
    for (page, bytes) in [(3, written), (1, zero), (9, zero)] {
        assert_eq!(rt; store.read_page(1, page, &mut read), Ok(()));
        assert_eq!(rt; read, bytes);
    }
    fs::remove_dir_all(&rt, path.as_str())?;
    Ok(())
}

// A log grows at its end, is trimmed at its end and cut at its front; logs of other nodes stay, and
// a store that is opened again finds all of it.
#[test]
fn logs_of_a_folder(rt: HostRuntime) -> Result<(), Fail> {
    let path = folder(rt, "logs")?;
    let mut store = FileStore::open(rt.alloc(), rt, path.as_str())?;
    assert_eq!(rt; store.log_len(0, 2), Ok(0));
    assert_eq!(rt; store.force(2, b"abcdef"), Ok(()));
    assert_eq!(rt; store.trim_log(2, 4), Ok(()));
    assert_eq!(rt; store.force(2, b"xy"), Ok(()));
    assert_eq!(rt; store.cut_log(2, 3), Ok(()));
    let mut again = FileStore::open(rt.alloc(), rt, path.as_str())?;
    assert_eq!(rt; again.log_len(0, 2), Ok(3));
    assert_eq!(rt; again.log_len(0, 1), Ok(0));
    let mut piece = [0u8; 2];
    assert_eq!(rt; again.read_log(0, 2, 1, &mut piece), Ok(()));
    assert_eq!(rt; piece, *b"xy");
    assert_eq!(rt; again.read_log(0, 2, 2, &mut piece), Err(Failed));
    fs::remove_dir_all(&rt, path.as_str())?;
    Ok(())
}

// A folder that can't be made is a fault of each call.
#[test]
fn a_folder_that_cannot_be_made(rt: HostRuntime) -> Result<(), Fail> {
    let path = folder(rt, "none")?;
    fs::write(&rt, path.as_str(), b"a file")?;
    let inner = format!(in rt.alloc(); "{path}/folder")?;
    let mut store = FileStore::open(rt.alloc(), rt, inner.as_str())?;
    let mut page = [0u8; 24];
    assert_eq!(rt; store.read_page(0, 0, &mut page), Err(Failed));
    assert_eq!(rt; store.write_page(0, 0, &page), Err(Failed));
    assert_eq!(rt; store.log_len(0, 0), Err(Failed));
    assert_eq!(rt; store.force(0, b"a"), Err(Failed));
    assert_eq!(rt; store.trim_log(0, 0), Err(Failed));
    assert_eq!(rt; store.cut_log(0, 0), Err(Failed));
    fs::remove_file(&rt, path.as_str())?;
    Ok(())
}
