use disk::SystemDisk;
use file_stores::{Filestore, FolderStore, StoreFault};
use std::fs;
use std::test::*;

// The folder of these tests.
const HOME: &str = "/tmp/file_stores";

// A store in a folder.
fn store_in(rt: &HostRuntime, folder: &str) -> Result<FolderStore<SystemDisk<HostRuntime>>, Fail> {
    let disk = SystemDisk::new(*rt, String::from_str(rt.alloc(), folder)?);
    Ok(FolderStore::new(disk, rt.alloc()))
}

// Whether a folder has this many files.
fn has_count(rt: &HostRuntime, folder: &str, expected: usize) -> Result<bool, Fail> {
    let mut count = 0usize;
    for entry in fs::read_dir(rt, folder)? {
        let _ = entry?;
        count = count.saturating_add(1);
    }
    Ok(count == expected)
}

// Files in the order in which they are given to a store, with their paths. An existing file is replaced as a whole, and
// a file may have the name of a part: the eighth deposit's part would have this one.
const FILES: [(&str, &str, &[u8]); 8] = [
    ("b", "/tmp/file_stores/b", b"abc"),
    ("empty", "/tmp/file_stores/empty", b""),
    ("b", "/tmp/file_stores/b", b"z"),
    ("c", "/tmp/file_stores/c", b"other"),
    ("...", "/tmp/file_stores/...", b"abc"),
    ("ä b", "/tmp/file_stores/ä b", b"abc"),
    (".part", "/tmp/file_stores/.part", b"abc"),
    (".part-8", "/tmp/file_stores/.part-8", b"abc"),
];

const BAD_NAMES: [&[u8]; 7] = [b"", b".", b"..", b"a/b", b"/a", b"a\0b", b"a\xff"];

// What a store answers to a file, where its calls can be counted.
fn stored(
    store: &mut FolderStore<SystemDisk<HostRuntime>>,
    name: &[u8],
    octets: &[u8],
) -> Result<(), StoreFault> {
    if store.calls() == u64::MAX {
        return Err(StoreFault::Failed);
    }
    store.deposit(name, octets)
}

fn is_file(rt: &HostRuntime, path: &str, octets: &[u8]) -> Result<bool, Fail> {
    Ok(fs::read(rt, path)?.as_slice() == octets)
}

fn keeps_files(
    rt: &HostRuntime,
    store: &mut FolderStore<SystemDisk<HostRuntime>>,
) -> Result<bool, Fail> {
    for (name, path, octets) in FILES {
        if stored(store, name.as_bytes(), octets).is_err() || !is_file(rt, path, octets)? {
            return Ok(false);
        }
    }
    Ok((store.calls(), store.failures()) == (8, 0))
}

fn refuses_names(store: &mut FolderStore<SystemDisk<HostRuntime>>) -> bool {
    for name in BAD_NAMES {
        if stored(store, name, b"abc") != Err(StoreFault::BadName) {
            return false;
        }
    }
    (store.calls(), store.failures()) == (15, 7)
}

// A part that an earlier run left does no harm, and of bad names nothing is left.
fn holds_files(rt: &HostRuntime) -> Result<bool, Fail> {
    fs::write(rt, "/tmp/file_stores/.part-1", b"left")?;
    let mut store = store_in(rt, HOME)?;
    Ok(keeps_files(rt, &mut store)? && refuses_names(&mut store) && has_count(rt, HOME, 8)?)
}

// Whether a store in a folder keeps nothing of a file.
fn fails(rt: &HostRuntime, folder: &str) -> Result<bool, Fail> {
    let mut store = store_in(rt, folder)?;
    let answer = stored(&mut store, b"b", b"abc");
    Ok(answer == Err(StoreFault::Failed) && store.failures() == 1)
}

// A file in place of a folder, one that is not there, one without permission to write, and one in which a folder has
// the file's name.
const FOLDERS: [&str; 4] = [
    "/tmp/file_stores/b",
    "/tmp/file_stores/gone",
    "/proc",
    "/tmp/file_stores/place",
];

#[test]
fn folders(rt: HostRuntime) -> Result<(), Fail> {
    let _ = fs::remove_dir_all(&rt, HOME);
    fs::create_dir(&rt, HOME)?;
    assert!(rt; holds_files(&rt)?);
    fs::create_dir(&rt, "/tmp/file_stores/place")?;
    fs::create_dir(&rt, "/tmp/file_stores/place/b")?;
    for folder in FOLDERS {
        assert!(rt; fails(&rt, folder)?, "{folder}");
    }
    // the part that was written beside the folder is removed again
    assert!(rt; has_count(&rt, "/tmp/file_stores/place", 1)?);
    fs::remove_dir_all(&rt, HOME)?;
    Ok(())
}
