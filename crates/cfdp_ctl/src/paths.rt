//! Paths of files, at both ends.
use crate::fault::CtlFault;
use std::alloc::{AllocError, Global};
use std::env;
use std::env::Env;

/// The folder in which the program runs; empty if no path is relative.
#[derive(Drop)]
pub(crate) struct Folder {
    path: String,
}

impl Folder {
    /// The folder in which the program runs, if one of these paths is relative.
    pub(crate) fn of<R: Env + AllocGlobal>(
        rt: &R,
        alloc: Global,
        paths: &[&str],
    ) -> Result<Folder, CtlFault> {
        let mut path = String::new(alloc);
        if paths.iter().any(|one| !one.starts_with('/')) {
            match env::current_dir(rt) {
                Ok(folder) => path.push_str(folder.to_string_lossy())?,
                Err(_) => return Err(CtlFault::NoFolder),
            }
        }
        Ok(Folder { path })
    }
}

/// The absolute path of a file, which the server finds wherever it runs.
pub(crate) fn whole_path(alloc: Global, folder: &Folder, path: &str) -> Result<String, AllocError> {
    if path.starts_with('/') {
        return String::from_str(alloc, path);
    }
    let folder = folder.path.as_str();
    format!(in alloc; "{folder}/{path}")
}

/// A file's name at the receiver: its own, in the folder `into` if one is given.
pub(crate) fn target_name(
    alloc: Global,
    into: Option<&str>,
    name: &str,
) -> Result<String, AllocError> {
    match into {
        Some(folder) if folder.is_empty() || folder.ends_with('/') => {
            format!(in alloc; "{folder}{name}")
        }
        Some(folder) => format!(in alloc; "{folder}/{name}"),
        None => String::from_str(alloc, name),
    }
}

/// The part of a path after the last slash.
pub(crate) fn base_name(path: &str) -> &str {
    match path.rsplit_once('/') {
        Some((_, name)) => name,
        None => path,
    }
}
