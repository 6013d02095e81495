//! The watched folder, and its folders for files that have ended.
use crate::{Mark, is_alike, is_left_alone, kept_name, why_name};
use std::alloc::{AllocError, Global};
use std::fs::{Metadata, OpenOptions};
use std::io::{ErrorKind, Write};
use std::os::unix::fs::MetadataExt;
use std::rt::Files;
use std::time::UNIX_EPOCH;
use std::{fs, io};

/// The folders, inside the watched one, for files that arrived and for files that didn't.
pub const SENT: &str = "sent";

pub const FAILED: &str = "failed";

// How many names are tried for a file that has ended.
const NAMES: u64 = 10_000;

/// A plain file in the folder, whose name doesn't begin with a dot.
#[derive(Drop)]
pub struct Found {
    pub name: String,
    pub mark: Mark,
}

/// What is in the folder.
#[derive(Drop)]
pub struct Listing {
    pub files: Vec<Found>,
    /// Whether a name isn't UTF-8.
    pub has_odd: bool,
}

/// Lists the folder.
pub fn list<R: Files + AllocGlobal + Copy + Drop>(
    rt: &R,
    alloc: Global,
    folder: &str,
) -> io::Result<Listing> {
    let mut listing = Listing {
        files: Vec::new(alloc),
        has_odd: false,
    };
    for entry in fs::read_dir(rt, folder)? {
        match entry {
            Ok(entry) => {
                if let Ok(metadata) = entry.metadata() {
                    add(alloc, &mut listing, entry.file_name(), &metadata)?;
                }
            }
            Err(error) if error.kind() == ErrorKind::InvalidFilename => listing.has_odd = true,
            Err(error) => return Err(error),
        }
    }
    Ok(listing)
}

// Adds a file, if it is a plain one that isn't left alone.
fn add(
    alloc: Global,
    listing: &mut Listing,
    name: &str,
    metadata: &Metadata,
) -> Result<(), AllocError> {
    if is_left_alone(name) || !metadata.is_file() {
        return Ok(());
    }
    let found = Found {
        name: String::from_str(alloc, name)?,
        mark: mark_of(metadata),
    };
    match listing.files.push(found) {
        Ok(()) => Ok(()),
        Err(_) => Err(AllocError),
    }
}

fn mark_of(metadata: &Metadata) -> Mark {
    Mark {
        size: metadata.len(),
        modified: written_at(metadata),
        inode: metadata.ino(),
    }
}

// When a file was written, in nanoseconds since 1970.
fn written_at(metadata: &Metadata) -> u64 {
    match metadata.modified() {
        Ok(time) => match time.duration_since(UNIX_EPOCH) {
            Ok(since) => u64::try_from(since.as_nanos()).unwrap_or(u64::MAX),
            Err(_) => 0,
        },
        Err(_) => 0,
    }
}

/// How a file is now; `None` if there is none.
pub fn mark_at<R: Files>(rt: &R, path: &str) -> Option<Mark> {
    match fs::symlink_metadata(rt, path) {
        Ok(metadata) => Some(mark_of(&metadata)),
        Err(_) => None,
    }
}

/// Whether the folder `sent` has a file with this size and time, under one of a file's names before the first that is
/// free.
pub fn was_sent<R: Files>(
    rt: &R,
    alloc: Global,
    folder: &str,
    name: &str,
    mark: Mark,
) -> Result<bool, AllocError> {
    for number in 1..=NAMES {
        let name = kept_name(alloc, name, number)?;
        let path = format!(in alloc; "{folder}/{SENT}/{name}")?;
        match mark_at(rt, path.as_str()) {
            Some(kept) if is_alike(mark, kept) => return Ok(true),
            Some(_) => {}
            None => break,
        }
    }
    Ok(false)
}

/// Makes the folders for files that have ended, if they aren't there.
pub fn make_folders<R: Files>(rt: &R, alloc: Global, folder: &str) -> io::Result<()> {
    for name in [SENT, FAILED] {
        let path = format!(in alloc; "{folder}/{name}")?;
        match fs::create_dir(rt, path.as_str()) {
            Err(error) if error.kind() != ErrorKind::AlreadyExists => return Err(error),
            _ => {}
        }
    }
    Ok(())
}

/// Moves a file of the folder into one of those folders, under the first of its names that is free. If there is a
/// reason, first writes that into another file beside it, whose name is free as well. The reason goes again if the file
/// can't be moved. Returns the path at which the file is kept.
pub fn keep_file<R: Files>(
    rt: &R,
    alloc: Global,
    folder: &str,
    name: &str,
    into: &str,
    reason: Option<&str>,
) -> io::Result<String> {
    make_folders(rt, alloc, folder)?;
    let old = format!(in alloc; "{folder}/{name}")?;
    let into = format!(in alloc; "{folder}/{into}")?;
    let path = free_path(rt, alloc, into.as_str(), name, reason.is_some())?;
    let Some(text) = reason else {
        fs::rename(rt, old.as_str(), path.as_str())?;
        return Ok(path);
    };
    let why = why_name(alloc, path.as_str())?;
    write_new(rt, why.as_str(), text)?;
    match fs::rename(rt, old.as_str(), path.as_str()) {
        Ok(()) => Ok(path),
        Err(error) => {
            let _as_it_may = fs::remove_file(rt, why.as_str());
            Err(error)
        }
    }
}

/// Moves a file from a path back into the folder, under the first of its names that is free.
pub fn take_back<R: Files>(
    rt: &R,
    alloc: Global,
    folder: &str,
    name: &str,
    path: &str,
) -> io::Result<()> {
    for number in 1..=NAMES {
        let name = kept_name(alloc, name, number)?;
        let back = format!(in alloc; "{folder}/{name}")?;
        // others write into the folder, and a link takes no file's place
        match fs::hard_link(rt, path, back.as_str()) {
            Ok(()) => return fs::remove_file(rt, path),
            Err(error) if error.kind() == ErrorKind::AlreadyExists => {}
            Err(_) => return fs::rename(rt, path, back.as_str()),
        }
    }
    Err(ErrorKind::AlreadyExists.into())
}

// A free path in a folder, by the first of a file's names that is free, and whose reason's name is, if it has one.
fn free_path<R: Files>(
    rt: &R,
    alloc: Global,
    folder: &str,
    name: &str,
    has_reason: bool,
) -> io::Result<String> {
    for number in 1..=NAMES {
        let name = kept_name(alloc, name, number)?;
        let path = format!(in alloc; "{folder}/{name}")?;
        let reason = why_name(alloc, path.as_str())?;
        if is_free(rt, path.as_str())? && (!has_reason || is_free(rt, reason.as_str())?) {
            return Ok(path);
        }
    }
    Err(ErrorKind::AlreadyExists.into())
}

// Whether there is nothing at a path. An error means that it can't be looked at, for example because its name is too
// long.
fn is_free<R: Files>(rt: &R, path: &str) -> io::Result<bool> {
    match fs::symlink_metadata(rt, path) {
        Ok(_) => Ok(false),
        Err(error) if error.kind() == ErrorKind::NotFound => Ok(true),
        Err(error) => Err(error),
    }
}

// Writes a new file. If that fails once the file is there, the file goes again.
fn write_new<R: Files>(rt: &R, path: &str, text: &str) -> io::Result<()> {
    let mut options = OpenOptions::new();
    let mut file = options.write(true).create_new(true).open(rt, path)?;
    let written = file.write_all(text.as_bytes());
    if written.is_err() {
        let _as_it_may = fs::remove_file(rt, path);
    }
    written
}
