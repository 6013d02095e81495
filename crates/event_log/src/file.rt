//! The file to which events are appended.
use event_levels::{Level, push_labelled};
use memchr::memchr;
use station_lines::{Moment, push_lost_line};
use std::alloc::{AllocError, Global};
use std::fs::{File, Metadata, OpenFile, OpenOptions};
use std::io::{Read, Seek, SeekFrom, Write};
use std::os::unix::fs::{FileTypeExt, MetadataExt};
use std::rt::Files;
use std::{fs, io, mem};

// How many milliseconds after a failed write the file is tried again.
const REST_MS: u64 = 1_000;

// How many milliseconds after a look at the path the next one comes.
const LOOK_MS: u64 = 500;

// Which file a path leads to.
#[derive(Clone, Copy, Debug, PartialEq, Eq)]
struct Identity {
    device: u64,
    node: u64,
}

/// A file to which events are appended. While it can't be written, its lines wait. A write that was cut short continues
/// where it ended, so each line of the file is whole. If an earlier run ended within
/// a line, as after a power cut, a line feed closes it first. If the path leads to another file later, or to none, it
/// is opened anew.
#[derive(Drop)]
pub struct LogFile<R: Files> {
    alloc: Global,
    path: String,
    file: Option<R::File>,
    pending: Vec<u8>,
    pending_lines: u64,
    /// Whether a line was closed that an earlier run didn't end, if there was one.
    has_begun: bool,
    /// Whether the last write ended within a line.
    is_cut_short: bool,
    /// Which file was opened, if that is known.
    identity: Option<Identity>,
    /// When the path is looked at next.
    look_due: u64,
    is_failing: bool,
    rests_until: u64,
    written: u64,
    lost: u64,
}

impl<R: Files> LogFile<R> {
    /// The file at this path. It is opened once something is to be written.
    pub fn new(alloc: Global, path: String) -> LogFile<R> {
        LogFile {
            alloc,
            path,
            file: None,
            pending: Vec::new(alloc),
            pending_lines: 0,
            has_begun: false,
            is_cut_short: false,
            identity: None,
            look_due: 0,
            is_failing: false,
            rests_until: 0,
            written: 0,
            lost: 0,
        }
    }

    /// Whether the last attempt to write the file failed.
    pub fn is_failing(&self) -> bool {
        self.is_failing
    }

    /// How many lines were written.
    pub fn written(&self) -> u64 {
        self.written
    }

    /// How many lines were lost since the last such call.
    pub fn take_lost(&mut self) -> u64 {
        mem::replace(&mut self.lost, 0)
    }

    /// Whether lines wait to be written.
    pub fn has_waiting(&self) -> bool {
        !self.pending.is_empty()
    }

    /// Takes so many lines to be written, out of `lines`, if none wait; then none of them stay there.
    pub fn take(&mut self, lines: &mut Vec<u8>, count: u64) {
        if self.pending.is_empty() {
            mem::swap(&mut self.pending, lines);
            self.pending_lines = count;
        }
    }

    /// Adds a line that says how many events were lost by a moment, unless memory for it runs out.
    pub(crate) fn tell_lost(&mut self, at: Moment, count: u64) {
        let before = self.pending.len();
        if self.push_lost(at, count).is_err() {
            self.pending.truncate(before);
        }
    }

    fn push_lost(&mut self, at: Moment, count: u64) -> Result<(), AllocError> {
        let mut line = String::new(self.alloc);
        push_lost_line(self.alloc, &mut line, at, count)?;
        push_labelled(&mut self.pending, line.as_bytes(), Level::Warning)
    }

    /// Writes what waits, at a moment in milliseconds. After a failure, the next attempt is a second later. If the path
    /// no longer leads to the open file, the file is opened anew first; the path is looked at twice a second.
    pub fn flush(&mut self, rt: &R, now: u64) {
        if now >= self.look_due {
            self.look_due = now.saturating_add(LOOK_MS);
            self.follow_path(rt);
        }
        if self.pending.is_empty() || now < self.rests_until {
            return;
        }
        let (count, outcome) = self.write(rt);
        let count = count.min(self.pending.len());
        self.is_cut_short = is_within_line(&self.pending[..count], self.is_cut_short);
        let _written = self.pending.drain(..count);
        self.is_failing = outcome.is_err();
        if self.is_failing {
            self.file = None;
            self.rests_until = now.saturating_add(REST_MS);
        } else {
            self.written = self.written.saturating_add(self.pending_lines);
            self.pending_lines = 0;
        }
    }

    /// Opens the file anew; returns whether that worked.
    pub fn reopen(&mut self, rt: &R) -> bool {
        self.close();
        self.rests_until = 0;
        self.is_failing = self.open(rt).is_err();
        !self.is_failing
    }

    // Opens the file anew if the path leads to another one, or to none.
    fn follow_path(&mut self, rt: &R) {
        if self.file.is_some() && leads_elsewhere(rt, self.path.as_str(), self.identity) {
            let _written_later = self.reopen(rt);
        }
    }

    // Closes the file, which is not written any more.
    fn close(&mut self) {
        self.file = None;
        self.begin_another();
    }

    // Another file comes next. The rest of a line that was cut short is lost, so that no file begins with it.
    fn begin_another(&mut self) {
        self.has_begun = false;
        if !self.is_cut_short {
            return;
        }
        self.is_cut_short = false;
        if let Some(end) = memchr(b'\n', self.pending.as_slice()) {
            let rest = end.saturating_add(1).min(self.pending.len());
            let _lost = self.pending.drain(..rest);
            self.pending_lines = self.pending_lines.saturating_sub(1);
            self.lost = self.lost.saturating_add(1);
        }
    }

    // Opens the file, and closes the line that an earlier run didn't end.
    fn open(&mut self, rt: &R) -> io::Result<()> {
        let last = self.identity;
        let mut file = self.open_known(rt)?;
        if self.identity != last {
            self.begin_another();
        }
        if !self.has_begun && is_cut(rt, self.path.as_str()) {
            file.write_all(b"\n")?;
        }
        self.has_begun = true;
        self.file = Some(file);
        Ok(())
    }

    // Opens the file, and notes which one it is. One that was made just now is opened once more, since another may have
    // been put there meanwhile.
    fn open_known(&mut self, rt: &R) -> io::Result<R::File> {
        let before = identity_at(rt, self.path.as_str());
        let file = open_log(rt, self.path.as_str())?;
        let found = identity_at(rt, self.path.as_str());
        self.identity = found;
        if before == found {
            return Ok(file);
        }
        let again = open_log(rt, self.path.as_str())?;
        if identity_at(rt, self.path.as_str()) != found {
            self.identity = None;
        }
        Ok(again)
    }

    // Writes as much of what waits as the file takes; returns how many octets that was, and how it ended.
    fn write(&mut self, rt: &R) -> (usize, io::Result<()>) {
        if self.file.is_none()
            && let Err(error) = self.open(rt)
        {
            return (0, Err(error));
        }
        match &mut self.file {
            Some(file) => write_some(file, self.pending.as_slice()),
            None => (0, Ok(())),
        }
    }
}

// Whether a write of these octets ended within a line; without any octets it is as before.
fn is_within_line(octets: &[u8], before: bool) -> bool {
    match octets.last() {
        Some(last) => *last != b'\n',
        None => before,
    }
}

// Which file a path leads to, if that can be seen.
fn identity_at<R: Files>(rt: &R, path: &str) -> Option<Identity> {
    match fs::metadata(rt, path) {
        Ok(found) => Some(identity_of(&found)),
        Err(_) => None,
    }
}

fn identity_of(found: &Metadata) -> Identity {
    Identity {
        device: found.dev(),
        node: found.ino(),
    }
}

// Whether a path leads to another file than this one, or to none. One that can't be looked at counts as the same.
fn leads_elsewhere<R: Files>(rt: &R, path: &str, identity: Option<Identity>) -> bool {
    match fs::metadata(rt, path) {
        Ok(found) => identity != Some(identity_of(&found)),
        Err(error) => error.kind() == io::ErrorKind::NotFound,
    }
}

// Whether the file at a path ends within a line. One that can't be read, or has no end, doesn't.
fn is_cut<R: Files>(rt: &R, path: &str) -> bool {
    match last_octet(rt, path) {
        Ok(Some(last)) => last != b'\n',
        _ => false,
    }
}

// The last octet of the file at a path, if it has any.
fn last_octet<R: Files>(rt: &R, path: &str) -> io::Result<Option<u8>> {
    let mut file = File::open(rt, path)?;
    let length = file.seek(SeekFrom::End(0))?;
    if length == 0 {
        return Ok(None);
    }
    let _place = file.seek(SeekFrom::Start(length - 1))?;
    let mut last = [0u8];
    file.read_exact(&mut last)?;
    Ok(Some(last[0]))
}

// Opens the file at a path. A pipe is refused: it could block the whole program.
fn open_log<R: Files>(rt: &R, path: &str) -> io::Result<R::File> {
    if let Ok(found) = fs::metadata(rt, path)
        && found.file_type().is_fifo()
    {
        return Err(io::ErrorKind::InvalidInput.into());
    }
    let mut options = OpenOptions::new();
    options.append(true).create(true).open(rt, path)
}

// Writes octets until all are written, or one write fails.
fn write_some<W: Write>(file: &mut W, octets: &[u8]) -> (usize, io::Result<()>) {
    let mut count = 0usize;
    for _ in 0..octets.len() {
        let rest = octets.get(count..).unwrap_or(&[]);
        if rest.is_empty() {
            break;
        }
        match file.write(rest) {
            Ok(0) => return (count, Err(io::ErrorKind::WriteZero.into())),
            Ok(more) => count = count.saturating_add(more).min(octets.len()),
            Err(error) => return (count, Err(error)),
        }
    }
    (count, Ok(()))
}
