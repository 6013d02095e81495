//! Says why the server ends too early, in a line below the fault.
use entity_config::ConfigFault;
use fault_texts::{line_within, place_among, place_of, push_value};
use outbox_file::{BadLine, bad_line_in};
use program_control::{ControlFault, ControlSocket, push_control_reason};
use program_numbers::push_numbers_reason;
use program_start::{
    ProgramFault, folder_of, load_file, push_bind_reason, push_folder_reason, push_link_reason,
    push_path_reason, push_place,
};
use station_config::{
    KEYS, KeyRow, REMOTE_KEYS, Settings, StationFault, Why, entity_table, is_known, push_allowed,
};
use std::alloc::{AllocError, Global};
use std::fs;
use std::io::ErrorKind;
use std::net::Net;
use std::rt::Files;
use toml::{Table, Value};

/// Adds a line that says exactly what is wrong with a server's start: which path or address, and the system's reason.
pub fn push_cause<R: Net + Files>(
    rt: &R,
    alloc: Global,
    text: &mut String,
    settings: &Settings,
    fault: &ProgramFault,
) -> Result<(), AllocError> {
    let sending = &settings.sending;
    match (fault, &sending.numbers, &sending.outbox) {
        (ProgramFault::Bind, _, _) => push_socket_reason(rt, alloc, text, settings),
        (ProgramFault::Numbers, Some(path), _) => push_numbers_reason(
            rt,
            alloc,
            text,
            path.as_str(),
        ),
        (ProgramFault::Outbox, _, Some(path)) => push_outbox_reason(
            rt,
            alloc,
            text,
            (path.as_str(), sending.outbox_repair),
        ),
        _ => Ok(()),
    }
}

// Adds which of the server's sockets can't be opened, and why.
fn push_socket_reason<R: Net + Files>(
    rt: &R,
    alloc: Global,
    text: &mut String,
    settings: &Settings,
) -> Result<(), AllocError> {
    let before = text.len();
    push_bind_reason(rt, text, settings.station.bind.as_str())?;
    let Some(control) = &settings.control else {
        return Ok(());
    };
    if text.len() == before {
        push_control_reason(rt, alloc, text, control.socket.as_str())?;
    }
    match &control.status_socket {
        Some(path) if path.as_str() == control.socket.as_str() => {
            writeln!(text, "{path}: is both the socket and the status socket")
        }
        Some(path) if text.len() == before => push_control_reason(rt, alloc, text, path.as_str()),
        _ => Ok(()),
    }
}

// Adds why the file of an outbox can't be used: who has it, what hinders at its path, or else that its lines do.
fn push_outbox_reason<R: Net + Files>(
    rt: &R,
    alloc: Global,
    text: &mut String,
    (path, repairs): (&str, bool),
) -> Result<(), AllocError> {
    let before = text.len();
    push_link_reason(rt, text, path)?;
    if text.len() > before {
        return Ok(());
    }
    let lock = format!(in alloc; "{path}.lock")?;
    match ControlSocket::open(rt, alloc, lock.as_str()) {
        Ok(held) => held.leave(rt, lock.as_str()),
        Err(ControlFault::Live) => return writeln!(text, "{path}: another program uses it"),
        Err(_) => return push_control_reason(rt, alloc, text, lock.as_str()),
    }
    match fs::metadata(rt, path) {
        Ok(found) if found.is_dir() => writeln!(text, "{path}: is a folder")?,
        Ok(found) if !found.is_file() => writeln!(text, "{path}: not a plain file")?,
        Err(error) if error.kind() != ErrorKind::NotFound => push_path_reason(text, path, &error)?,
        _ => push_folder_reason(rt, text, folder_of(path))?,
    }
    if text.len() == before {
        push_line_reason(rt, alloc, text, path, repairs)?;
    }
    if text.len() == before {
        writeln!(
            text,
            "{path}: can't be read or written, is in use by another program, or has a line that doesn't queue a file of this configuration"
        )?;
    }
    Ok(())
}

// Adds which line of an outbox's file can't be parsed, if there is one, and how a start goes on without it. One that is to
// do so could not keep a copy of the file.
fn push_line_reason<R: Files>(
    rt: &R,
    alloc: Global,
    text: &mut String,
    path: &str,
    repairs: bool,
) -> Result<(), AllocError> {
    let Ok(octets) = load_file(rt, alloc, path) else {
        return Ok(());
    };
    match bad_line_in(alloc, octets.as_slice())? {
        Some(_) if repairs => writeln!(text, "{path}.bad: the file can't be copied there"),
        Some(BadLine { line, offset }) => writeln!(
            text,
            "{path}:{line}: this line, at octet {offset}, can't be parsed; `outbox_repair = true` in `[sending]` goes on without it"
        ),
        None => Ok(()),
    }
}

/// Adds a line that says what is wrong with a station's file, where, what was found there, and what is allowed.
pub fn push_station_fault(
    alloc: Global,
    text: &mut String,
    (path, content): (&str, &str),
    fault: StationFault,
) -> Result<(), AllocError> {
    let top = match entity_table(alloc, content) {
        Ok(top) => top,
        Err(_) => {
            let place = place_of(alloc, content, ConfigFault::BadToml)?;
            return push_place(text, path, &place, ConfigFault::BadToml);
        }
    };
    match fault {
        StationFault::Entity(fault) => {
            let place = place_among(alloc, content, &top, fault)?;
            push_place(text, path, &place, fault)
        }
        _ => push_key_fault(alloc, text, (path, content), fault),
    }
}

// Adds what is wrong with one of the station's own keys.
fn push_key_fault(
    alloc: Global,
    text: &mut String,
    (path, content): (&str, &str),
    fault: StationFault,
) -> Result<(), AllocError> {
    let (row, number, why) = match fault {
        StationFault::Key { place, why } => (KEYS.get(place), 0, why),
        StationFault::Remote { table, place } => (
            REMOTE_KEYS.get(place),
            (table as u64).saturating_add(1),
            Why::Unfit,
        ),
        _ => return Ok(()),
    };
    let (Some(row), Ok(top)) = (row, toml::table_from_str(alloc, content)) else {
        return Ok(());
    };
    let found = table_found(&top, row, number);
    let key = match why {
        Why::NoTable => "",
        Why::UnknownKey => unknown_in(found, row.0),
        Why::Missing | Why::Unfit => row.1,
    };
    write!(text, "{path}: ")?;
    if let Some(line) = line_within(alloc, content, row.0, number, key)? {
        write!(text, "line {line}: ")?;
    }
    if number == 0 {
        write!(text, "[{}] ", row.0)?;
    } else {
        write!(text, "[[{}]] number {number} ", row.0)?;
    }
    push_found(text, (found, key), row, why)?;
    text.push_str("\n")
}

// The value in the place of a key's table: the table, or what else is there.
fn table_found<'t>(top: &'t Table, row: &KeyRow, number: u64) -> Option<&'t Value> {
    let found = top.get(row.0)?;
    if number == 0 {
        return Some(found);
    }
    found.as_array()?.get(number.saturating_sub(1) as usize)
}

// The first key of a table that isn't known there.
fn unknown_in<'t>(found: Option<&'t Value>, section: &str) -> &'t str {
    if let Some(value) = found
        && let Some(table) = value.as_table()
    {
        for name in table.keys() {
            if !is_known(section, name.as_str()) {
                return name.as_str();
            }
        }
    }
    ""
}

// Adds a key, what was found there, and what is allowed.
fn push_found(
    text: &mut String,
    (found, key): (Option<&Value>, &str),
    row: &KeyRow,
    why: Why,
) -> Result<(), AllocError> {
    match why {
        Why::NoTable => {
            text.push_str("found ")?;
            if let Some(value) = found {
                push_value(text, value)?;
            }
            text.push_str("; a table")
        }
        Why::UnknownKey => {
            for letter in key.chars() {
                text.push(if letter.is_control() { '?' } else { letter })?;
            }
            let mut between = ": not known; one of ";
            for known in &KEYS {
                if known.0 == row.0 {
                    write!(text, "{between}{}", known.1)?;
                    between = ", ";
                }
            }
            Ok(())
        }
        Why::Missing => {
            write!(text, "{key}: missing; ")?;
            push_allowed(text, row)
        }
        Why::Unfit => {
            write!(text, "{key}: found ")?;
            if let Some(outer) = found
                && let Some(value) = outer.get(key)
            {
                push_value(text, value)?;
            }
            text.push_str("; ")?;
            push_allowed(text, row)
        }
    }
}

/// Adds a note for each folder that a server can't use from the start, though it goes on.
pub fn push_folder_notes<R: Files>(
    rt: &R,
    alloc: Global,
    text: &mut String,
    settings: &Settings,
) -> Result<(), AllocError> {
    let mut reason = String::new(alloc);
    push_folder_reason(rt, &mut reason, settings.store.folder.as_str())?;
    push_note(text, reason.as_str())?;
    if let Some(folder) = &settings.record.folder {
        reason.clear();
        push_folder_reason(rt, &mut reason, folder.as_str())?;
        push_note(text, reason.as_str())?;
    }
    Ok(())
}

// Adds a reason as a note, if there is one.
fn push_note(text: &mut String, reason: &str) -> Result<(), AllocError> {
    if !reason.is_empty() {
        text.push_str("note: ")?;
        text.push_str(reason)?;
    }
    Ok(())
}

/// Adds why a server can't append to its log, if it has one and that shows: its folder isn't there, or it isn't a plain
/// file.
pub fn push_log_reason<R: Files>(
    rt: &R,
    text: &mut String,
    settings: &Settings,
) -> Result<(), AllocError> {
    let Some(path) = &settings.log.file else {
        return Ok(());
    };
    let path = path.as_str();
    match fs::metadata(rt, path) {
        Ok(found) if found.is_dir() => writeln!(text, "{path}: is a folder"),
        Ok(found) if !found.is_file() => writeln!(text, "{path}: not a plain file"),
        Ok(_) => Ok(()),
        Err(error) if error.kind() != ErrorKind::NotFound => push_path_reason(text, path, &error),
        Err(_) => push_folder_reason(rt, text, folder_of(path)),
    }
}
