//! Why the system refuses a file, in words.
use std::io;
use std::io::ErrorKind;

/// The reason of an error, in words.
pub(crate) fn reason_of(error: &io::Error) -> &'static str {
    match error.kind() {
        ErrorKind::NotFound => "no such file",
        ErrorKind::PermissionDenied => "permission denied",
        ErrorKind::NotADirectory => "a part of its path is not a folder",
        ErrorKind::AlreadyExists => "its name is taken",
        ErrorKind::ReadOnlyFilesystem => "the disk can only be read",
        ErrorKind::StorageFull => "no space is left",
        ErrorKind::OutOfMemory => "no memory",
        _ => "it can't be opened",
    }
}
