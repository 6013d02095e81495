//! Explains a program's faults to a person.
use crate::fault::ProgramFault;
use crate::files::{CONFIG_OCTETS, octets_of, read_configuration};
use crate::paths::{push_file_reason, push_path_reason};
use entity_config::ConfigFault;
use fault_texts::{allowed_at, remedy};
use script_io::write_whole;
use std::alloc::{AllocError, Global};
use std::fs::File;
use std::io::{ErrorKind, Write};
use std::net::{Net, UdpSocket};
use std::rt::Files;
use std::{fs, io};

/// What a program was started with, as far as explanations mention it.
#[derive(Clone, Copy)]
pub struct Started<'a> {
    /// The path of the configuration's file.
    pub config: &'a str,
    /// The address of the socket for datagrams.
    pub bind: &'a str,
    /// The path of the control socket.
    pub control: Option<&'a str>,
    /// The path of the file that keeps where transaction numbers begin.
    pub numbers: Option<&'a str>,
    /// The path of the file that keeps the outbox.
    pub outbox: Option<&'a str>,
    /// The path of the file to be sent.
    pub source: Option<&'a str>,
}

impl<'a> Started<'a> {
    /// With a configuration's file alone, as for a check of it.
    pub fn with_config(config: &'a str) -> Started<'a> {
        Started {
            config,
            bind: "",
            control: None,
            numbers: None,
            outbox: None,
            source: None,
        }
    }
}

/// Adds a line that explains a fault, if there is more to say than its name. To find that out, the failed call is made
/// again.
pub fn push_explanation<R: Net + Files>(
    rt: &R,
    alloc: Global,
    text: &mut String,
    started: &Started<'_>,
    fault: &ProgramFault,
) -> Result<(), AllocError> {
    match fault {
        ProgramFault::Read | ProgramFault::Unread(_) => push_read(rt, text, started),
        ProgramFault::Config(_) => push_config(rt, alloc, text, started.config),
        ProgramFault::Bind => push_bind(rt, text, started),
        ProgramFault::Numbers => push_numbers(text, started.numbers),
        ProgramFault::Outbox => push_outbox(text, started.outbox),
        _ => Ok(()),
    }
}

/// Adds a line that says why the text of a configuration's file can't be read, if it can't be.
pub fn push_text_reason<R: Files>(
    rt: &R,
    alloc: Global,
    text: &mut String,
    path: &str,
) -> Result<(), AllocError> {
    let before = text.len();
    push_file_reason(rt, text, path, CONFIG_OCTETS)?;
    if text.len() > before {
        return Ok(());
    }
    let Ok(octets) = octets_of(rt, alloc, path) else {
        return Ok(());
    };
    match str::from_utf8(octets.as_slice()) {
        Ok(_) => Ok(()),
        Err(error) => {
            let offset = error.valid_up_to();
            writeln!(text, "{path}: octet {offset} is not UTF-8")
        }
    }
}

/// Adds a line that says why no socket for datagrams can be opened at an address, if none can be. To find that out, it
/// is tried again.
pub fn push_bind_reason<R: Net>(
    rt: &R,
    text: &mut String,
    address: &str,
) -> Result<(), AllocError> {
    match UdpSocket::bind(rt, address) {
        Err(error) => push_address_reason(text, address, &error),
        Ok(_) => Ok(()),
    }
}

// Adds why a socket can't be opened at an address.
fn push_address_reason(
    text: &mut String,
    address: &str,
    error: &io::Error,
) -> Result<(), AllocError> {
    match error.kind() {
        ErrorKind::AddrInUse => writeln!(text, "{address}: another program has this address"),
        ErrorKind::AddrNotAvailable => {
            writeln!(text, "{address}: this machine does not have the address")
        }
        _ => push_path_reason(text, address, error),
    }
}

/// Prints an explanation. What the writer doesn't take is lost.
pub fn tell_explanation<E: Write>(errors: &mut E, text: &str) {
    let _told = write_whole(errors, text.as_bytes());
    let _flushed = errors.flush();
}

// Adds which file can't be read, and why: the configuration is tried first, since it is read first.
fn push_read<R: Files>(rt: &R, text: &mut String, started: &Started<'_>) -> Result<(), AllocError> {
    let before = text.len();
    push_unread(rt, text, started.config)?;
    if text.len() > before {
        return Ok(());
    }
    let Some(source) = started.source else {
        return writeln!(text, "{}: can't be read", started.config);
    };
    match fs::metadata(rt, source) {
        Ok(found) if !found.is_file() => writeln!(text, "{source}: not a plain file"),
        _ => push_unread(rt, text, source),
    }
}

// Adds why a file can't be read; nothing if it can be. A pipe or the like is not opened, because that might wait for a
// writer.
fn push_unread<R: Files>(rt: &R, text: &mut String, path: &str) -> Result<(), AllocError> {
    match fs::metadata(rt, path) {
        Err(error) => writeln!(text, "{path}: {error}"),
        Ok(found) if found.is_dir() => writeln!(text, "{path}: is a folder"),
        Ok(found) if !found.is_file() => Ok(()),
        Ok(_) => match File::open(rt, path) {
            Err(error) => writeln!(text, "{path}: {error}"),
            Ok(_) => Ok(()),
        },
    }
}

// Whether a path is a plain file, which has the same content when it is read again.
fn is_plain<R: Files>(rt: &R, path: &str) -> bool {
    match fs::metadata(rt, path) {
        Ok(found) => found.is_file(),
        Err(_) => false,
    }
}

// Adds what is wrong with a configuration, and which values are allowed.
fn push_config<R: Files>(
    rt: &R,
    alloc: Global,
    text: &mut String,
    path: &str,
) -> Result<(), AllocError> {
    if !is_plain(rt, path) {
        return Ok(());
    }
    match read_configuration(rt, alloc, path) {
        Ok(Err(fault)) => {
            let allowed = match fault {
                ConfigFault::OutOfRange(key) | ConfigFault::WrongType(key) => allowed_at(key),
                _ => remedy(fault),
            };
            writeln!(text, "{path}: {fault}{allowed}")
        }
        _ => Ok(()),
    }
}

// Adds why a socket can't be opened.
fn push_bind<R: Net>(rt: &R, text: &mut String, started: &Started<'_>) -> Result<(), AllocError> {
    match (UdpSocket::bind(rt, started.bind), started.control) {
        (Err(error), _) => writeln!(text, "{}: {error}", started.bind),
        (Ok(_), Some(path)) => writeln!(
            text,
            "{path}: another server answers there, the path is not a socket, or no socket can be made there"
        ),
        (Ok(_), None) => Ok(()),
    }
}

fn push_numbers(text: &mut String, path: Option<&str>) -> Result<(), AllocError> {
    match path {
        Some(path) => writeln!(
            text,
            "{path}: holds no number, can't be read or written, or is in use by another program; or the numbers are used up"
        ),
        None => Ok(()),
    }
}

fn push_outbox(text: &mut String, path: Option<&str>) -> Result<(), AllocError> {
    match path {
        Some(path) => writeln!(
            text,
            "{path}: can't be read or written, is in use by another program, or has a line that doesn't queue a file of this configuration"
        ),
        None => Ok(()),
    }
}
