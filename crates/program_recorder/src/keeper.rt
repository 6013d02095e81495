//! Keeps recordings in a folder.
use crate::kept::KeptKeys;
use crate::names::{key_of_name, push_name};
use crate::recording::Recording;
use cfdp_types::TxnKey;
use std::alloc::{AllocError, Global};
use std::fs::OpenOptions;
use std::io::Write;
use std::rt::Files;
use std::time::UNIX_EPOCH;
use std::{fs, io};

// How many of the oldest recordings are removed at once.
const REMOVALS: usize = 1_024;

/// A folder with one file for each recording, `SOURCE.SEQ.script`. It keeps at most so many and removes the oldest
/// ones. Other files in the folder are left alone.
#[derive(Drop)]
pub struct Keeper {
    folder: String,
    most: usize,
    /// The recordings in the folder, once it was listed.
    kept: Option<KeptKeys>,
}

// A recording in the folder, by the moment when it was written.
#[derive(Clone, Copy, Debug, PartialEq, Eq, PartialOrd, Ord)]
struct Found {
    at: u64,
    key: TxnKey,
}

impl Keeper {
    /// Keeps at most `most` recordings in this folder, which must exist once something is kept.
    pub fn new(folder: String, most: usize) -> Keeper {
        Keeper {
            folder,
            most,
            kept: None,
        }
    }

    /// Keeps a transaction's recording, in place of an earlier one of the same transaction. Then removes the oldest
    /// ones if there are too many, at most `REMOVALS` at once. After an error there may be less in the folder than was
    /// noted, or a file that ends with `.part`.
    pub fn keep<R: Files + AllocGlobal + Copy + Drop>(
        &mut self,
        rt: &R,
        key: TxnKey,
        recording: &Recording,
    ) -> io::Result<()> {
        let alloc: Global = rt.alloc();
        let mut kept = match self.kept.take() {
            Some(kept) => kept,
            None => listed(rt, alloc, self.folder.as_str())?,
        };
        let ended = self.write(rt, alloc, key, recording, &mut kept);
        self.kept = Some(kept);
        ended
    }

    // Writes a recording, notes it among those that are kept, and removes the oldest ones if there are too many.
    fn write<R: Files>(
        &self,
        rt: &R,
        alloc: Global,
        key: TxnKey,
        recording: &Recording,
        kept: &mut KeptKeys,
    ) -> io::Result<()> {
        let path = self.path_of(alloc, key)?;
        write_file(rt, alloc, path.as_str(), recording)?;
        kept.note(key)?;
        for _ in 0..REMOVALS {
            let Some(oldest) = kept.take_over(self.most) else {
                break;
            };
            let path = self.path_of(alloc, oldest)?;
            let _was_there = fs::remove_file(rt, path.as_str());
        }
        Ok(())
    }

    // The path of a transaction's file.
    fn path_of(&self, alloc: Global, key: TxnKey) -> Result<String, AllocError> {
        let mut path = String::from_str(alloc, self.folder.as_str())?;
        path.push_str("/")?;
        push_name(&mut path, key)?;
        Ok(path)
    }
}

// Writes a recording to a file beside its path, and then renames that file to the path.
fn write_file<R: Files>(
    rt: &R,
    alloc: Global,
    path: &str,
    recording: &Recording,
) -> io::Result<()> {
    let part = format!(in alloc; "{path}.part")?;
    let written = match write_part(rt, part.as_str(), recording) {
        Ok(()) => fs::rename(rt, part.as_str(), path),
        Err(error) => Err(error),
    };
    if written.is_err() {
        let _was_there = fs::remove_file(rt, part.as_str());
    }
    written
}

fn write_part<R: Files>(rt: &R, part: &str, recording: &Recording) -> io::Result<()> {
    let mut options = OpenOptions::new();
    let mut file = options
        .write(true)
        .create(true)
        .truncate(true)
        .open(rt, part)?;
    file.write_all(recording.heading.as_bytes())?;
    file.write_all(recording.script.as_bytes())
}

// The transactions whose recordings are in a folder, the oldest one first.
fn listed<R: Files + AllocGlobal + Copy + Drop>(
    rt: &R,
    alloc: Global,
    folder: &str,
) -> io::Result<KeptKeys> {
    let mut found = Vec::new(alloc);
    for entry in fs::read_dir(rt, folder)? {
        let Ok(entry) = entry else {
            continue;
        };
        let Some(key) = key_of_name(entry.file_name().as_bytes()) else {
            continue;
        };
        let at = match entry.metadata() {
            Ok(file) if file.is_file() => written_at(&file),
            _ => continue,
        };
        found.push(Found { at, key })?;
    }
    found.sort()?;
    let mut kept = KeptKeys::new(alloc);
    for one in &found {
        kept.note(one.key)?;
    }
    Ok(kept)
}

// When a file was written, in milliseconds since 1970.
fn written_at(file: &fs::Metadata) -> u64 {
    match file.modified() {
        Ok(time) => match time.duration_since(UNIX_EPOCH) {
            Ok(since) => u64::try_from(since.as_millis()).unwrap_or(u64::MAX),
            Err(_) => 0,
        },
        Err(_) => 0,
    }
}
