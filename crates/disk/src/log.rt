//! The history of the requests to a disk, which only proofs read. It takes no memory, and its methods do nothing at run
//! time.
ghost use Rattle.std.specs.Prelude.{◌≡◌, [], ◌∷◌, List};
ghost use Rattle.std.specs.Borrow.{ftrue};
ghost use Rattle.disk.specs.Steps.{Step};

use crate::device::Fault;
use std::marker::Model;

/// A request to a disk.
#[derive(Clone, Copy)]
pub enum Asked<'a> {
    Create(&'a str),
    Append(&'a [u8]),
    Flush,
    Rename(&'a str, &'a str),
    Link(&'a str, &'a str),
    Remove(&'a str),
    MakeFolder(&'a str),
    FlushFolder(&'a str),
}

/// An entry of the history.
#[derive(Clone, Copy)]
pub enum Note<'a> {
    /// A request, and its result.
    Called(Asked<'a>, Result<(), Fault>),
    /// A read of a path, which found no file or these octets.
    Saw(&'a str, Option<&'a [u8]>),
    /// A look at a path, which found a folder.
    SawFolder(&'a str),
}

/// The history of a disk, newest first. Contracts read it as `steps`.
#[derive(Drop)]
pub struct Log {
    pub ghost steps: { List Step },
}

impl Model for Log {
    ghost also_owns = { λ _. ftrue };
}

impl Log {
    ghost use Rattle.disk.specs.Asked.{noted};

    /// A history that begins now: what is on the disk already is not known.
    pub fn new() -> Log
        ensures { result.steps ≡ [] }
    {
        Log {}
    }

    /// The history with one more entry.
    pub fn and(&self, _note: &Note<'_>) -> Log
        ensures { result.steps ≡ noted _note.now ∷ self.now.steps }
    {
        Log {}
    }
}
