//! The files that a command line names.
use crate::fault::CtlFault;
use crate::paths::base_name;
use crate::reasons::reason_of;
use crate::screen::Screen;
use std::alloc::{AllocError, Global};
use std::collections::BTreeMap;
use std::io::{ErrorKind, Write};
use std::rt::Files;
use std::{fs, io};

/// A file to be sent.
#[derive(Drop)]
pub(crate) struct Item {
    /// Its path, as the command line gives it.
    pub(crate) path: String,
    /// The name that the receiver learns: relative to the folder that stands for it, or without any folder.
    pub(crate) name: String,
}

/// The files at these paths, in order; a folder stands for the files in it and below it, if that is asked for. Prints a
/// line for each path that gives no file, and returns `None` if there is one.
pub(crate) fn items_at<R, W, E>(
    rt: &R,
    alloc: Global,
    screen: &mut Screen<W, E>,
    paths: &[&str],
    recursive: bool,
) -> Result<Option<Vec<Item>>, CtlFault>
where
    R: Files + AllocGlobal + Copy + Drop,
    W: Write + Drop,
    E: Write + Drop,
{
    let mut items = Vec::new(alloc);
    let mut all = true;
    for path in paths {
        if let Err(error) = add_path(rt, alloc, &mut items, path, recursive) {
            let reason = match error.kind() {
                ErrorKind::OutOfMemory => return Err(CtlFault::NoMemory),
                ErrorKind::NotFound => "no such file",
                ErrorKind::InvalidFilename => "a name in it is not UTF-8",
                _ => reason_of(&error),
            };
            let text = match error.kind() {
                ErrorKind::NotFound => format!(in alloc; "cfdp_ctl: {reason}: {path}")?,
                _ => format!(in alloc; "cfdp_ctl: {path}: {reason}")?,
            };
            screen.complain_line(alloc, text.as_str());
            all = false;
        }
    }
    Ok(if all { Some(items) } else { None })
}

// Adds the file at a path, or the files of the folder there. What is neither counts as not found.
fn add_path<R: Files + AllocGlobal + Copy + Drop>(
    rt: &R,
    alloc: Global,
    items: &mut Vec<Item>,
    path: &str,
    recursive: bool,
) -> io::Result<()> {
    let Ok(metadata) = fs::metadata(rt, path) else {
        return Err(ErrorKind::NotFound.into());
    };
    if metadata.is_dir() && recursive {
        for (name, path) in files_below(rt, alloc, path.trim_end_matches('/'))? {
            push(items, path, name)?;
        }
        return Ok(());
    }
    if !metadata.is_file() {
        return Err(ErrorKind::NotFound.into());
    }
    let path = String::from_str(alloc, path)?;
    let name = String::from_str(alloc, base_name(path.as_str()))?;
    Ok(push(items, path, name)?)
}

// The paths of the plain files in a folder and below it, by their names relative to it.
fn files_below<R: Files + AllocGlobal + Copy + Drop>(
    rt: &R,
    alloc: Global,
    top: &str,
) -> io::Result<BTreeMap<String, String>> {
    let mut files = BTreeMap::new(alloc);
    let mut folders = Vec::new(alloc);
    push_name(&mut folders, String::new(alloc))?;
    for _ in 0..u64::MAX {
        let Some(folder) = folders.pop() else {
            break;
        };
        list(rt, alloc, &mut files, &mut folders, top, folder.as_str())?;
    }
    Ok(files)
}

// Adds the plain files of one folder below the top one, and the folders in it.
fn list<R: Files + AllocGlobal + Copy + Drop>(
    rt: &R,
    alloc: Global,
    files: &mut BTreeMap<String, String>,
    folders: &mut Vec<String>,
    top: &str,
    folder: &str,
) -> io::Result<()> {
    let path = format!(in alloc; "{top}/{folder}")?;
    for entry in fs::read_dir(rt, path.as_str())? {
        let entry = entry?;
        let metadata = entry.metadata()?;
        let name = entry.file_name();
        if metadata.is_dir() {
            push_name(folders, format!(in alloc; "{folder}{name}/")?)?;
        } else if metadata.is_file() {
            let path = format!(in alloc; "{path}{name}")?;
            let name = format!(in alloc; "{folder}{name}")?;
            if files.insert(name, path).is_err() {
                return Err(ErrorKind::OutOfMemory.into());
            }
        }
    }
    Ok(())
}

fn push(items: &mut Vec<Item>, path: String, name: String) -> Result<(), AllocError> {
    match items.push(Item { path, name }) {
        Ok(()) => Ok(()),
        Err(_) => Err(AllocError),
    }
}

fn push_name(names: &mut Vec<String>, name: String) -> Result<(), AllocError> {
    match names.push(name) {
        Ok(()) => Ok(()),
        Err(_) => Err(AllocError),
    }
}
