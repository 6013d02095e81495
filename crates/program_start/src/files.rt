//! Reads the files that a program needs at its start, and those that it sends.
ghost use Rattle.std.specs.Prelude.{◌≡◌, ◌≤◌, ◌+◌, IfOk, vec_len};

use crate::fault::ProgramFault;
use crate::unread::{Unread, unread_by};
use cfdp_types::Octets;
use cfdp_types::limits::FILE_OCTETS;
use entity_config::{Config, ConfigFault, read_config};
use std::alloc::Global;
use std::fs::{File, Metadata};
use std::io::{ErrorKind, Read};
use std::rt::Files;
use std::{fs, io};

// The fault for a failed call: memory ran out, or the file can't be read.
fn fault_of(error: &io::Error) -> ProgramFault {
    if error.kind() == ErrorKind::OutOfMemory {
        ProgramFault::NoMemory
    } else {
        ProgramFault::Read
    }
}

// The same for a file that is to be sent.
fn unread_of(error: &io::Error) -> ProgramFault {
    if error.kind() == ErrorKind::OutOfMemory {
        ProgramFault::NoMemory
    } else {
        ProgramFault::Unread(unread_by(error))
    }
}

// The octets of a file, at most `most`, in memory reserved for `room` octets at first.
fn read_up_to<R: Files>(
    rt: &R,
    alloc: Global,
    path: &str,
    most: u64,
    room: usize,
) -> io::Result<Vec<u8>> {
    let mut octets = Vec::with_capacity(alloc, room)?;
    let mut rest = File::open(rt, path)?.take(most);
    append_all(alloc, &mut rest, &mut octets)?;
    Ok(octets)
}

// How many octets of a file are read at once.
const BLOCK_OCTETS: usize = 4 * 1_024;

// Appends all that a reader gives. It goes through one block, so that the memory of a large file is not cleared first.
fn append_all<S: Read>(alloc: Global, reader: &mut S, octets: &mut Vec<u8>) -> io::Result<()> {
    let mut block = Vec::new(alloc);
    block.resize(BLOCK_OCTETS, 0)?;
    for _ in 0..u64::MAX {
        match reader.read(block.as_mut_slice()) {
            Ok(0) => return Ok(()),
            Ok(count) => octets.extend_from_slice(&block[..count])?,
            Err(error) if error.kind() == ErrorKind::Interrupted => {}
            Err(error) => return Err(error),
        }
    }
    Err(io::Error::from(ErrorKind::TimedOut))
}

// The most octets of a configuration's file: some hundred times what the largest configuration takes.
pub(crate) const CONFIG_OCTETS: u64 = 16 * 1_024 * 1_024;

/// The octets of a configuration's file.
pub(crate) fn octets_of<R: Files>(
    rt: &R,
    alloc: Global,
    path: &str,
) -> Result<Vec<u8>, ProgramFault> {
    read_up_to(rt, alloc, path, CONFIG_OCTETS, 0).map_err(|error| fault_of(&error))
}

/// Reads a file as a configuration. One that isn't UTF-8 has the fault `BadToml`.
pub(crate) fn read_configuration<R: Files>(
    rt: &R,
    alloc: Global,
    path: &str,
) -> Result<Result<Config, ConfigFault>, ProgramFault> {
    let octets = octets_of(rt, alloc, path)?;
    match str::from_utf8(octets.as_slice()) {
        Ok(text) => Ok(read_config(alloc, text)),
        Err(_) => Ok(Err(ConfigFault::BadToml)),
    }
}

/// Reads the text of a configuration's file. One that isn't UTF-8, or has more than 16 MiB, has the fault `BadToml`.
pub fn load_text<R: Files>(rt: &R, alloc: Global, path: &str) -> Result<String, ProgramFault> {
    let read = read_up_to(rt, alloc, path, CONFIG_OCTETS + 1, 0);
    let octets = read.map_err(|error| fault_of(&error))?;
    let is_cut = octets.len() as u64 > CONFIG_OCTETS;
    match String::from_utf8(octets) {
        Ok(text) if !is_cut => Ok(text),
        _ => Err(ProgramFault::Config(ConfigFault::BadToml.number())),
    }
}

/// Reads the configuration in a file.
pub fn load_config<R: Files>(rt: &R, alloc: Global, path: &str) -> Result<Config, ProgramFault> {
    match read_configuration(rt, alloc, path)? {
        Ok(config) => Ok(config),
        Err(ConfigFault::NoMemory) => Err(ProgramFault::NoMemory),
        Err(fault) => Err(ProgramFault::Config(fault.number())),
    }
}

/// Reads a plain file to be sent: all of its octets, or one more than an entity sends, which it then refuses.
pub fn load_file<R: Files>(rt: &R, alloc: Global, path: &str) -> Result<Octets, ProgramFault> {
    match fs::metadata(rt, path) {
        Ok(found) if found.is_file() => {
            let most = FILE_OCTETS as u64 + 1;
            let room = found.len().saturating_add(1).min(most) as usize;
            match read_up_to(rt, alloc, path, most, room) {
                Ok(octets) => Ok(Octets::from_vec(octets)?),
                Err(error) => Err(unread_of(&error)),
            }
        }
        Ok(found) => Err(no_plain_file(&found)),
        Err(error) => Err(unread_of(&error)),
    }
}

// The fault for what isn't a plain file.
fn no_plain_file(found: &Metadata) -> ProgramFault {
    if found.is_dir() {
        ProgramFault::Unread(Unread::Folder)
    } else {
        ProgramFault::Unread(Unread::NotPlain)
    }
}

// The size of a plain file.
fn size_of<R: Files>(rt: &R, path: &str) -> Result<u64, ProgramFault> {
    match fs::metadata(rt, path) {
        Ok(found) if found.is_file() => Ok(found.len()),
        Ok(found) => Err(no_plain_file(&found)),
        Err(error) => Err(unread_of(&error)),
    }
}

/// Reads files to be sent. Threads other than the main one use it.
pub trait FileReader {
    /// The octets of a plain file, as [`load_file`] reads them.
    fn load(&self, alloc: Global, path: &str) -> Result<Octets, ProgramFault>;

    /// How many octets a plain file has, without reading them.
    fn size(&self, path: &str) -> Result<u64, ProgramFault>;
}

/// Reads files through a runtime.
#[derive(Clone, Copy, Drop)]
pub struct RuntimeFiles<R> {
    rt: R,
}

impl<R> RuntimeFiles<R> {
    pub fn new(rt: R) -> RuntimeFiles<R> {
        RuntimeFiles { rt }
    }

    /// The runtime.
    pub fn runtime(&self) -> &R {
        &self.rt
    }
}

impl<R: Files> FileReader for RuntimeFiles<R> {
    fn load(&self, alloc: Global, path: &str) -> Result<Octets, ProgramFault> {
        load_file(&self.rt, alloc, path)
    }

    fn size(&self, path: &str) -> Result<u64, ProgramFault> {
        size_of(&self.rt, path)
    }
}
