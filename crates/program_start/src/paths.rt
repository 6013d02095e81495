//! Why a path can't be used, in words.
use std::alloc::AllocError;
use std::fs::{File, Metadata};
use std::io::ErrorKind;
use std::os::unix::fs::MetadataExt;
use std::rt::Files;
use std::{fs, io};

/// Adds a line that says why a call for a path failed.
pub fn push_path_reason(
    text: &mut String,
    path: &str,
    error: &io::Error,
) -> Result<(), AllocError> {
    match words_of(error.kind()) {
        Some(words) => writeln!(text, "{path}: {words}"),
        None => writeln!(text, "{path}: {error}"),
    }
}

// What a kind of failure means for a path.
fn words_of(kind: ErrorKind) -> Option<&'static str> {
    match kind {
        ErrorKind::NotFound => Some("is not there"),
        ErrorKind::PermissionDenied => Some("permission denied"),
        ErrorKind::IsADirectory => Some("is a folder"),
        ErrorKind::NotADirectory => Some("a part of the path is not a folder"),
        ErrorKind::FilesystemLoop => Some("its links lead in a circle"),
        ErrorKind::ReadOnlyFilesystem => Some("the file system can only be read"),
        ErrorKind::InvalidFilename => Some("the path is too long"),
        ErrorKind::InvalidInput => Some("the path is too long, or has a zero octet"),
        _ => None,
    }
}

/// Adds a line that says why a file can't be read, if it can't be: it isn't there, may not be read, isn't a plain file,
/// or has more than `most` octets. A pipe or the like is not opened, because that might wait for a writer.
pub fn push_file_reason<R: Files>(
    rt: &R,
    text: &mut String,
    path: &str,
    most: u64,
) -> Result<(), AllocError> {
    match fs::metadata(rt, path) {
        Err(error) => push_path_reason(text, path, &error),
        Ok(found) if !found.is_file() => push_kind(text, path, &found),
        Ok(found) if found.len() > most => {
            let octets = found.len();
            writeln!(text, "{path}: too large: {octets} octets; allowed: {most}")
        }
        Ok(_) => match File::open(rt, path) {
            Err(error) => push_path_reason(text, path, &error),
            Ok(_) => Ok(()),
        },
    }
}

// Adds a line that says what a path leads to, which isn't a plain file: a folder, or something else.
fn push_kind(text: &mut String, path: &str, found: &Metadata) -> Result<(), AllocError> {
    if found.is_dir() {
        writeln!(text, "{path}: is a folder")
    } else {
        writeln!(text, "{path}: not a plain file")
    }
}

/// Adds a line that says why a path isn't a folder in which files can be, if it isn't one.
pub fn push_folder_reason<R: Files>(
    rt: &R,
    text: &mut String,
    path: &str,
) -> Result<(), AllocError> {
    match fs::metadata(rt, path) {
        Err(error) => push_path_reason(text, path, &error),
        Ok(found) if !found.is_dir() => writeln!(text, "{path}: not a folder"),
        Ok(_) => Ok(()),
    }
}

/// The folder of the file that a path leads to.
pub fn folder_of(path: &str) -> &str {
    match path.rsplit_once('/') {
        None => ".",
        Some(("", _)) => "/",
        Some((folder, _)) => folder,
    }
}

/// Whether one program alone can hold the file at a path: it is a plain file with one name, or isn't there yet. If the system
/// doesn't say, it can.
pub fn may_be_held<R: Files>(rt: &R, path: &str) -> bool {
    match fs::symlink_metadata(rt, path) {
        Ok(found) => found.is_file() && found.nlink() == 1,
        Err(_) => true,
    }
}

/// Adds a line that says so if a path is a link, or leads to a file with a second name: another program could hold the file by
/// another path.
pub fn push_link_reason<R: Files>(rt: &R, text: &mut String, path: &str) -> Result<(), AllocError> {
    match fs::symlink_metadata(rt, path) {
        Ok(found) if found.is_symlink() => writeln!(text, "{path}: is a link"),
        Ok(found) if found.is_file() && found.nlink() > 1 => {
            writeln!(text, "{path}: has a second name")
        }
        _ => Ok(()),
    }
}
