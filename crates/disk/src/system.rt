//! A folder of the system as a disk.
ghost use Rattle.std.specs.Prelude.{◌≡◌, [], ◌∷◌};
ghost use Rattle.disk.specs.Asked.{noted};
ghost use Rattle.disk.specs.declared.log.Note.TheVariants.{Called, Saw, SawFolder};

use crate::device::{Disk, Fault};
use crate::faults::{Hindrance, fault_of, hindrance_of};
use crate::log::{Asked, Log, Note};
use std::fs::{File, OpenFile};
use std::io::{ErrorKind, Read, Write};
use std::rt::Files;
use std::{fs, io};

/// A folder of the system, which must exist when it is used. Its earlier history is not known.
#[derive(Drop)]
pub struct SystemDisk<R: Files + AllocGlobal + Drop> {
    rt: R,
    folder: String,
    open: Option<R::File>,
    hindrance: Option<Hindrance>,
    pub(crate) log: Log,
}

impl<R: Files + AllocGlobal + Drop> SystemDisk<R> {
    /// The folder at a path.
    pub fn new(rt: R, folder: String) -> SystemDisk<R>
        ensures { ⟦<SystemDisk<R> as Disk>⟧.done result ≡ [] }
    {
        SystemDisk {
            rt,
            folder,
            open: None,
            hindrance: None,
            log: Log::new(),
        }
    }

    // Passes a request to the system, and notes the request and its result.
    fn ask(&mut self, asked: Asked<'_>) -> Result<(), Fault>
        ensures { self.new.log.steps ≡ noted (Called asked.entry result) ∷ self.old.log.steps }
    {
        let answer = match self.perform(asked) {
            Ok(()) => Ok(()),
            Err(error) => {
                self.hindrance = Some(hindrance_of(&error));
                Err(fault_of(&error))
            }
        };
        self.log = self.log.and(&Note::Called(asked, answer));
        answer
    }

    // Makes the system call. No proof says that it is the requested one: here the history relies on the code.
    fn perform(&mut self, asked: Asked<'_>) -> io::Result<()>
        ensures { self.new.log ≡ self.old.log }
    {
        match asked {
            Asked::Create(path) => self.make_file(path),
            Asked::Append(octets) => self.write(octets),
            Asked::Flush => self.sync(),
            Asked::Rename(from, to) => self.move_file(from, to),
            Asked::Link(from, to) => self.link_file(from, to),
            Asked::Remove(path) => self.remove_file(path),
            Asked::MakeFolder(path) => self.create_folder(path),
            Asked::FlushFolder(path) => self.sync_folder(path),
        }
    }

    // Notes what a read found.
    fn note_read(&mut self, path: &str, found: Option<&[u8]>)
        ensures { self.new.log.steps ≡ noted (Saw path.entry found.entry) ∷ self.old.log.steps }
    {
        self.log = self.log.and(&Note::Saw(path, found));
    }

    // Notes that a folder was seen.
    fn note_folder(&mut self, path: &str)
        ensures { self.new.log.steps ≡ noted (SawFolder path.entry) ∷ self.old.log.steps }
    {
        self.log = self.log.and(&Note::SawFolder(path));
    }

    // The system's path for a path below the folder.
    fn place(&self, path: &str) -> io::Result<String> {
        let folder = self.folder.as_str();
        if path.is_empty() {
            Ok(String::from_str(self.rt.alloc(), folder)?)
        } else {
            Ok(format!(in self.rt.alloc(); "{folder}/{path}")?)
        }
    }

    fn make_file(&mut self, path: &str) -> io::Result<()>
        ensures { self.new.log ≡ self.old.log }
    {
        self.open = None;
        let place = self.place(path)?;
        self.open = Some(File::create_new(&self.rt, place.as_str())?);
        Ok(())
    }

    fn write(&mut self, octets: &[u8]) -> io::Result<()>
        ensures { self.new.log ≡ self.old.log }
    {
        match &mut self.open {
            Some(file) => file.write_all(octets),
            None => Err(ErrorKind::InvalidInput.into()),
        }
    }

    fn sync(&self) -> io::Result<()> {
        match &self.open {
            Some(file) => file.sync_all(),
            None => Err(ErrorKind::InvalidInput.into()),
        }
    }

    // A renamed file stays open, so that more can be appended.
    fn move_file(&self, from: &str, to: &str) -> io::Result<()> {
        let from = self.place(from)?;
        let to = self.place(to)?;
        fs::rename(&self.rt, from.as_str(), to.as_str())
    }

    fn link_file(&mut self, from: &str, to: &str) -> io::Result<()>
        ensures { self.new.log ≡ self.old.log }
    {
        self.open = None;
        let from = self.place(from)?;
        let to = self.place(to)?;
        fs::hard_link(&self.rt, from.as_str(), to.as_str())
    }

    fn remove_file(&mut self, path: &str) -> io::Result<()>
        ensures { self.new.log ≡ self.old.log }
    {
        self.open = None;
        let place = self.place(path)?;
        fs::remove_file(&self.rt, place.as_str())
    }

    fn create_folder(&self, path: &str) -> io::Result<()> {
        let place = self.place(path)?;
        fs::create_dir(&self.rt, place.as_str())
    }

    fn sync_folder(&self, path: &str) -> io::Result<()> {
        let place = self.place(path)?;
        File::open(&self.rt, place.as_str())?.sync_all()
    }

    // Returns the octets of a file, or None if there is no file.
    fn octets_of(&self, path: &str) -> io::Result<Option<Vec<u8>>> {
        let place = self.place(path)?;
        match fs::read(&self.rt, place.as_str()) {
            Ok(octets) => Ok(Some(octets)),
            Err(error) if error.kind() == ErrorKind::NotFound => Ok(None),
            Err(error) => Err(error),
        }
    }

    // Whether there is a folder at a path. A link to a folder doesn't count.
    fn has_folder(&self, path: &str) -> io::Result<bool> {
        let place = self.place(path)?;
        Ok(fs::symlink_metadata(&self.rt, place.as_str())?.is_dir())
    }
}

impl<R: Files + AllocGlobal + Drop> Disk for SystemDisk<R> {
    ghost done = { λ disk. disk.log.steps };

    fn create(&mut self, path: &str) -> Result<(), Fault> {
        self.ask(Asked::Create(path))
    }

    fn append(&mut self, octets: &[u8]) -> Result<(), Fault> {
        self.ask(Asked::Append(octets))
    }

    fn flush(&mut self) -> Result<(), Fault> {
        self.ask(Asked::Flush)
    }

    fn rename(&mut self, from: &str, to: &str) -> Result<(), Fault> {
        self.ask(Asked::Rename(from, to))
    }

    fn link(&mut self, from: &str, to: &str) -> Result<(), Fault> {
        self.ask(Asked::Link(from, to))
    }

    fn remove(&mut self, path: &str) -> Result<(), Fault> {
        self.ask(Asked::Remove(path))
    }

    fn make_folder(&mut self, path: &str) -> Result<(), Fault> {
        self.ask(Asked::MakeFolder(path))
    }

    fn flush_folder(&mut self, path: &str) -> Result<(), Fault> {
        self.ask(Asked::FlushFolder(path))
    }

    fn hindrance(&self) -> Option<Hindrance> {
        self.hindrance
    }

    fn read(&mut self, path: &str) -> Result<Option<Vec<u8>>, Fault> {
        match self.octets_of(path) {
            Ok(found) => {
                self.note_read(path, found.as_ref().map(|octets| octets.as_slice()));
                Ok(found)
            }
            Err(error) => {
                self.hindrance = Some(hindrance_of(&error));
                Err(fault_of(&error))
            }
        }
    }

    fn is_folder(&mut self, path: &str) -> Result<bool, Fault> {
        match self.has_folder(path) {
            Ok(true) => {
                self.note_folder(path);
                Ok(true)
            }
            Ok(false) => Ok(false),
            Err(error) => {
                self.hindrance = Some(hindrance_of(&error));
                Err(fault_of(&error))
            }
        }
    }
}
