//! The plan of windows, as the page reads it.
use ctl_windows::{Rate, Window, fault_text, read_plan};
use json::Writer;
use std::alloc::{AllocError, Global};
use std::fs::{File, Metadata};
use std::io::{ErrorKind, Read};
use std::os::unix::fs::MetadataExt;
use std::rt::Files;
use std::time::UNIX_EPOCH;
use std::{fs, io};

// The most octets of a plan.
const PLAN_OCTETS: u64 = 16_777_216;

/// What tells one content of the plan's file from another.
#[derive(Clone, Copy, PartialEq, Eq)]
pub(crate) struct Mark {
    size: u64,
    // in nanoseconds since 1970
    modified: u64,
    inode: u64,
}

/// How the file at a path is now; `None` if there is none.
pub(crate) fn mark_at<R: Files>(rt: &R, path: &str) -> Option<Mark> {
    match fs::metadata(rt, path) {
        Ok(metadata) => Some(Mark {
            size: metadata.len(),
            modified: written_at(&metadata),
            inode: metadata.ino(),
        }),
        Err(_) => None,
    }
}

fn written_at(metadata: &Metadata) -> u64 {
    match metadata.modified() {
        Ok(time) => match time.duration_since(UNIX_EPOCH) {
            Ok(since) => u64::try_from(since.as_nanos()).unwrap_or(u64::MAX),
            Err(_) => 0,
        },
        Err(_) => 0,
    }
}

/// The plan at a path as JSON: an object with the lists `windows` and `faults`, of which one is empty. A window has `remote`
/// as text, `from` and `until` in milliseconds since 1970, and `rate`, if it has one, as a number or `"off"`.
pub(crate) fn plan_json<R: Files>(
    rt: &R,
    alloc: Global,
    path: &str,
) -> Result<Vec<u8>, AllocError> {
    match read_file(rt, alloc, path) {
        Ok(octets) => {
            let text = String::from_utf8_lossy(alloc, octets.as_slice())?;
            let plan = read_plan(alloc, text.as_str())?;
            let mut faults = Vec::new(alloc);
            for fault in plan.faults.as_slice() {
                push_line(&mut faults, fault_text(alloc, fault)?)?;
            }
            json_of(alloc, plan.windows.as_slice(), faults.as_slice())
        }
        Err(error) => {
            let reason = reason_of(&error);
            let mut faults = Vec::new(alloc);
            push_line(&mut faults, format!(in alloc; "{path}: {reason}")?)?;
            json_of(alloc, &[], faults.as_slice())
        }
    }
}

/// The JSON where there is no plan.
pub(crate) fn no_plan(alloc: Global) -> Result<Vec<u8>, AllocError> {
    json_of(alloc, &[], &[])
}

fn push_line(lines: &mut Vec<String>, line: String) -> Result<(), AllocError> {
    match lines.push(line) {
        Ok(()) => Ok(()),
        Err(_) => Err(AllocError),
    }
}

fn read_file<R: Files>(rt: &R, alloc: Global, path: &str) -> io::Result<Vec<u8>> {
    let mut octets = Vec::new(alloc);
    File::open(rt, path)?
        .take(PLAN_OCTETS)
        .read_to_end(&mut octets)?;
    Ok(octets)
}

fn reason_of(error: &io::Error) -> &'static str {
    match error.kind() {
        ErrorKind::NotFound => "no such file",
        ErrorKind::PermissionDenied => "permission denied",
        _ => "it can't be read",
    }
}

// Windows count only where there is no fault.
fn json_of(alloc: Global, windows: &[Window], faults: &[String]) -> Result<Vec<u8>, AllocError> {
    let mut writer = Writer::new(Vec::new(alloc));
    writer.begin_object()?;
    writer.key("windows")?;
    writer.begin_array()?;
    if faults.is_empty() {
        for window in windows {
            push_window(alloc, &mut writer, *window)?;
        }
    }
    writer.end_array()?;
    writer.key("faults")?;
    writer.begin_array()?;
    for fault in faults {
        writer.string(fault.as_str())?;
    }
    writer.end_array()?;
    writer.end_object()?;
    Ok(writer.into_inner())
}

fn push_window(alloc: Global, writer: &mut Writer, window: Window) -> Result<(), AllocError> {
    let remote = window.remote;
    let remote = format!(in alloc; "{remote}")?;
    writer.begin_object()?;
    writer.key("remote")?;
    writer.string(remote.as_str())?;
    writer.key("from")?;
    writer.u64(window.from)?;
    writer.key("until")?;
    writer.u64(window.until)?;
    match window.rate {
        Rate::Same => {}
        Rate::Off => {
            writer.key("rate")?;
            writer.string("off")?;
        }
        Rate::Octets(octets) => {
            writer.key("rate")?;
            writer.u64(octets)?;
        }
    }
    writer.end_object()
}
