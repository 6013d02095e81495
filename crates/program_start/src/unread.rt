//! Why a file to be sent can't be read.
ghost use Rattle.std.specs.Prelude.{◌≡◌};
ghost use Rattle.program_start.specs.Reasons.{unread_words};

use std::io;
use std::io::ErrorKind;

/// Why a file to be sent can't be read.
#[derive(Clone, Copy, Debug, PartialEq, Eq)]
pub enum Unread {
    /// Nothing is at its path.
    NotThere,
    /// The program's user may not read it.
    Denied,
    /// It is a folder.
    Folder,
    /// It is a pipe, a device or a socket.
    NotPlain,
    /// A part of its path isn't a folder.
    NoFolder,
    /// The links on its path lead in a circle.
    Circle,
    /// Its path is too long, or has a zero octet.
    NoPath,
    /// Its path is not UTF-8.
    NotText,
    /// A call of the system failed for another reason.
    System,
}

impl Unread {
    /// The same in words, as part of a line.
    pub fn words(self) -> &'static str
        ensures { result.now ≡ unread_words self }
    {
        match self {
            Unread::NotThere => "is not there",
            Unread::Denied => "permission denied",
            Unread::Folder => "is a folder",
            Unread::NotPlain => "not a plain file",
            Unread::NoFolder => "a part of the path is not a folder",
            Unread::Circle => "its links lead in a circle",
            Unread::NoPath => "the path is too long, or has a zero octet",
            Unread::NotText => "the path is not UTF-8",
            Unread::System => "the system can't read it",
        }
    }
}

/// Why a failed call of the system means that a file can't be read.
pub(crate) fn unread_by(error: &io::Error) -> Unread {
    match error.kind() {
        ErrorKind::NotFound => Unread::NotThere,
        ErrorKind::PermissionDenied => Unread::Denied,
        ErrorKind::IsADirectory => Unread::Folder,
        ErrorKind::NotADirectory => Unread::NoFolder,
        ErrorKind::FilesystemLoop => Unread::Circle,
        ErrorKind::InvalidFilename | ErrorKind::InvalidInput => Unread::NoPath,
        _ => Unread::System,
    }
}
