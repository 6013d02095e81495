//! Threads other than the main one read files to be sent, so that the main thread never waits for a file.
use crate::clock::wall_moment;
use crate::desk::Desk;
use cfdp_types::Octets;
use program_start::{FileReader, ProgramFault, Unread};
use std::alloc::{AllocError, Global};
use std::str;
use std::sync::Wait;
use std::time::Clock;

/// A file being read.
#[derive(Debug, Drop)]
pub struct Reading {
    /// Its path.
    pub path: Octets,
    /// Since when, in milliseconds since 1970.
    pub since: u64,
    /// The number of this reading among all.
    pub(crate) number: u64,
}

impl Desk {
    /// Reads a file to be sent, and lists it in `readings` meanwhile.
    pub(crate) fn read_file<R: Wait + Clock, F: FileReader>(
        &self,
        rt: &R,
        alloc: Global,
        files: &F,
        path: &Octets,
    ) -> Result<Octets, ProgramFault> {
        let number = self.begin_reading(rt, path)?;
        let file = load(alloc, files, path.as_slice());
        self.end_reading(rt, number);
        file
    }

    /// Looks at the size of a file to be sent, and lists it in `readings` meanwhile.
    pub(crate) fn look_at_file<R: Wait + Clock, F: FileReader>(
        &self,
        rt: &R,
        files: &F,
        path: &Octets,
    ) -> Result<u64, ProgramFault> {
        let number = self.begin_reading(rt, path)?;
        let size = size_of(files, path.as_slice());
        self.end_reading(rt, number);
        size
    }

    // Lists a file as being read, and returns the number of the reading.
    fn begin_reading<R: Wait + Clock>(&self, rt: &R, path: &Octets) -> Result<u64, AllocError> {
        let (path, since) = (path.copy()?, wall_moment(rt));
        let mut trays = self.trays.lock(rt);
        let number = trays.next_reading;
        trays.next_reading = number.saturating_add(1);
        trays.readings.push(Reading {
            path,
            since,
            number,
        })?;
        Ok(number)
    }

    // No longer lists a file as being read.
    fn end_reading<R: Wait>(&self, rt: &R, number: u64) {
        let mut trays = self.trays.lock(rt);
        if let Some(place) = place_of(trays.readings.as_slice(), number)
            && place < trays.readings.len()
        {
            let _read = trays.readings.remove(place);
        }
    }

    /// The files being read.
    pub fn readings<R: Wait>(&self, rt: &R, alloc: Global) -> Result<Vec<Reading>, AllocError> {
        let mut copies = Vec::new(alloc);
        let trays = self.trays.lock(rt);
        for reading in &trays.readings {
            copies.push(Reading {
                path: reading.path.copy()?,
                since: reading.since,
                number: reading.number,
            })?;
        }
        Ok(copies)
    }

    /// Asks the thread of `read_files` for a file, which `take_file` then returns. Only one file may be wanted at a
    /// time.
    pub fn want_file<R: Wait>(&self, rt: &R, path: Octets) {
        self.trays.lock(rt).wanted = Some(path);
        self.wants.notify_one();
    }

    // Waits for a file that is wanted; `None` once the desk is closed.
    fn next_wanted<R: Wait>(&self, rt: &R) -> Option<Octets> {
        let mut trays = self.trays.lock(rt);
        for _ in rt.forever() {
            if trays.is_closed {
                return None;
            }
            if trays.wanted.is_some() {
                return trays.wanted.take();
            }
            trays = self.wants.wait(rt, trays);
        }
        None
    }

    // Leaves the file that was wanted.
    fn leave_file<R: Wait>(&self, rt: &R, file: Result<Octets, ProgramFault>) {
        self.trays.lock(rt).file = Some(file);
        self.came.notify_one();
    }

    /// Takes the file that was wanted, once it was read, or the fault if it can't be read.
    pub fn take_file<R: Wait>(&self, rt: &R) -> Option<Result<Octets, ProgramFault>> {
        self.trays.lock(rt).file.take()
    }
}

/// Reads wanted files, one at a time, until the desk is closed.
pub fn read_files<R: Wait + Clock, F: FileReader>(rt: &R, alloc: Global, files: &F, desk: &Desk) {
    for _ in rt.forever() {
        let Some(path) = desk.next_wanted(rt) else {
            return;
        };
        let file = desk.read_file(rt, alloc, files, &path);
        desk.leave_file(rt, file);
    }
}

// The octets of a file. A path that is not UTF-8 can't be read.
fn load<F: FileReader>(alloc: Global, files: &F, path: &[u8]) -> Result<Octets, ProgramFault> {
    match str::from_utf8(path) {
        Ok(path) => files.load(alloc, path),
        Err(_) => Err(ProgramFault::Unread(Unread::NotText)),
    }
}

// The size of a file. A path that is not UTF-8 can't be read.
fn size_of<F: FileReader>(files: &F, path: &[u8]) -> Result<u64, ProgramFault> {
    match str::from_utf8(path) {
        Ok(path) => files.size(path),
        Err(_) => Err(ProgramFault::Unread(Unread::NotText)),
    }
}

// The place of the reading with this number.
fn place_of(readings: &[Reading], number: u64) -> Option<usize> {
    for (place, reading) in readings.iter().enumerate() {
        if reading.number == number {
            return Some(place);
        }
    }
    None
}
