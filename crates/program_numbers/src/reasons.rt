//! Why a file provides no numbers, in words.
use program_control::{ControlFault, ControlSocket};
use program_start::{
    folder_of, push_file_reason, push_folder_reason, push_link_reason, push_path_reason,
};
use std::alloc::{AllocError, Global};
use std::fs;
use std::fs::File;
use std::io::{ErrorKind, Read};
use std::net::Net;
use std::rt::Files;

// The most octets that a file of numbers has: a number and a line feed.
const NUMBER_OCTETS: u64 = 64;

/// Adds a line that says why the file at a path provides no numbers. To find that out, the file is read again, but not
/// changed.
pub fn push_numbers_reason<R: Files + Net>(
    rt: &R,
    alloc: Global,
    text: &mut String,
    path: &str,
) -> Result<(), AllocError> {
    let before = text.len();
    push_link_reason(rt, text, path)?;
    if text.len() > before {
        return Ok(());
    }
    let lock = format!(in alloc; "{path}.lock")?;
    match ControlSocket::open(rt, alloc, lock.as_str()) {
        Ok(held) => {
            held.leave(rt, lock.as_str());
            push_unnumbered(rt, alloc, text, path)
        }
        Err(ControlFault::Live) => writeln!(text, "{path}: another program uses it"),
        Err(ControlFault::NotSocket) => writeln!(text, "{lock}: exists, but is not a socket"),
        Err(ControlFault::System) => push_unheld(rt, text, path, lock.as_str()),
    }
}

// Adds why the file can't be held.
fn push_unheld<R: Files>(
    rt: &R,
    text: &mut String,
    path: &str,
    lock: &str,
) -> Result<(), AllocError> {
    let before = text.len();
    push_folder_reason(rt, text, folder_of(path))?;
    if text.len() == before {
        writeln!(
            text,
            "{lock}: no socket can be made there: permission denied, no space, or the path is too long"
        )?;
    }
    Ok(())
}

// Adds what is wrong with a file that nobody else uses.
fn push_unnumbered<R: Files>(
    rt: &R,
    alloc: Global,
    text: &mut String,
    path: &str,
) -> Result<(), AllocError> {
    match fs::metadata(rt, path) {
        Err(error) if error.kind() == ErrorKind::NotFound => {
            return push_unwritten(text, path);
        }
        Err(error) => return push_path_reason(text, path, &error),
        Ok(_) => {}
    }
    let before = text.len();
    push_file_reason(rt, text, path, NUMBER_OCTETS)?;
    if text.len() > before {
        return Ok(());
    }
    match has_number(rt, alloc, path) {
        Some(true) => push_unwritten(text, path),
        Some(false) => writeln!(text, "{path}: holds no number"),
        None => writeln!(text, "{path}: can't be read"),
    }
}

// Adds the reason that remains if the file is as it should be: it can't be written, or no number is left.
fn push_unwritten(text: &mut String, path: &str) -> Result<(), AllocError> {
    writeln!(
        text,
        "{path}: can't be written, or no number is left: the sequence numbers of the configuration are used up"
    )
}

// Whether the file holds a number: decimal digits, with a line feed or without.
fn has_number<R: Files>(rt: &R, alloc: Global, path: &str) -> Option<bool> {
    let mut octets = Vec::new(alloc);
    let file = File::open(rt, path).ok()?;
    file.take(NUMBER_OCTETS).read_to_end(&mut octets).ok()?;
    let text = octets.as_slice();
    let digits = text.strip_suffix(b"\n".as_slice()).unwrap_or(text);
    let mut are_digits = !digits.is_empty();
    for digit in digits {
        are_digits = are_digits && digit.is_ascii_digit();
    }
    Some(are_digits)
}
