//! Locks a file as long as the program runs.
use std::fs::{File, OpenOptions, TryLockError};
use std::io;

/// What locks files.
pub(crate) trait Hold {
    /// Locks a file, and makes it if it doesn't exist; `None` if another program holds its lock. The lock ends with the file.
    fn hold(&self, path: &str) -> io::Result<Option<File>>;
}

impl Hold for HostRuntime {
    fn hold(&self, path: &str) -> io::Result<Option<File>> {
        let mut options = OpenOptions::new();
        let file = options.write(true).create(true).open(self, path)?;
        match file.try_lock() {
            Ok(()) => Ok(Some(file)),
            Err(TryLockError::WouldBlock) => Ok(None),
            Err(TryLockError::Error(error)) => Err(error),
        }
    }
}
