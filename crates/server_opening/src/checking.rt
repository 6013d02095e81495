//! Whether a file is one of a station or of an entity.
use entity_config::Config;
use program_start::{ProgramFault, load_text, print, push_text_reason, tell_explanation};
use server_answers::{push_remarks, push_station_fault};
use server_lanes::{hints_of, push_hints};
use station_config::{Settings, StationFault, read_file};
use std::alloc::{AllocError, Global};
use std::io::Write;
use std::rt::Files;

/// The text of a file; `why` says why it can't be read.
pub(crate) fn text_at<R: Files>(
    rt: &R,
    alloc: Global,
    path: &str,
    why: &mut String,
) -> Result<String, ProgramFault> {
    match load_text(rt, alloc, path) {
        Ok(text) => Ok(text),
        Err(fault) => {
            let _has_memory = push_text_reason(rt, alloc, why, path);
            Err(fault)
        }
    }
}

/// The fault of a program whose station's file has one; `why` says where.
pub(crate) fn station_fault(
    alloc: Global,
    (path, text): (&str, &str),
    fault: StationFault,
    why: &mut String,
) -> ProgramFault {
    if fault == StationFault::NoMemory {
        return ProgramFault::NoMemory;
    }
    let _has_memory = push_station_fault(alloc, why, (path, text), fault);
    ProgramFault::Config(fault.number())
}

/// Checks a file alone, and prints `ok`. If files wait for each other's lanes, or something makes little sense, `errors`
/// says so.
pub(crate) fn check<R: Files, W: Write, E: Write>(
    rt: &R,
    alloc: Global,
    path: &str,
    (writer, errors): (&mut W, &mut E),
    why: &mut String,
) -> Result<(), ProgramFault> {
    let text = text_at(rt, alloc, path, why)?;
    match read_file(alloc, text.as_str(), path) {
        Ok((settings, config)) => {
            print(writer, "ok\n")?;
            let mut notes = String::new(alloc);
            push_notes(alloc, &mut notes, &settings, &config)?;
            tell_explanation(errors, notes.as_str());
            Ok(())
        }
        Err(fault) => Err(station_fault(alloc, (path, text.as_str()), fault, why)),
    }
}

// Adds what makes little sense in a file.
fn push_notes(
    alloc: Global,
    notes: &mut String,
    settings: &Option<Settings>,
    config: &Config,
) -> Result<(), AllocError> {
    let peers = match settings {
        Some(settings) => settings.peer_lanes(alloc, config)?,
        None => Vec::new(alloc),
    };
    push_hints(notes, hints_of(alloc, config, peers.as_slice())?.as_slice())?;
    push_remarks(alloc, notes, config)
}
