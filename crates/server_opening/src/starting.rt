//! What is to be served, by the command line and the file that this names.
use crate::checking::{check, station_fault, text_at};
use entity_config::{Config, ConfigFault, read_config};
use program_start::{ProgramFault, Started, load_text, print, push_explanation, tell_explanation};
use program_words::{
    EntityWords, ServerWords, WordsFault, asked_text, push_server_complaint, server_help,
    server_version, server_words,
};
use server_answers::{push_cause, push_folder_notes, push_log_reason};
use station_config::{Settings, read_station};
use std::alloc::{AllocError, Global};
use std::fs;
use std::io::Write;
use std::net::Net;
use std::rt::Files;

/// What is to be served, beside its configuration: a station or an entity, and the text of the file that has both.
#[derive(Drop)]
pub struct Start<'w> {
    pub settings: Settings,
    pub text: String,
    /// The words of a command line that names an entity's file, and whether its faults are explained.
    told: Option<EntityWords<'w>>,
    explains: bool,
}

/// Reads the server's command line, whose first word is the program's own name, and the file that it names. Returns
/// what is to be served; nothing if help, the version or a check was asked for, which `writer` has then. What makes little
/// sense in a file goes to `errors`; `why` says more of a fault, with `explains` also of a command line.
pub fn begin<'w, R: Net + Files, W: Write, E: Write>(
    rt: &R,
    alloc: Global,
    words: &'w [String],
    (writer, errors): (&mut W, &mut E),
    explains: bool,
    why: &mut String,
) -> Result<Option<(Start<'w>, Config)>, ProgramFault> {
    match server_words(alloc, words) {
        Ok(ServerWords::Station(path)) => Ok(Some(station_at(rt, alloc, path, errors, why)?)),
        Ok(ServerWords::Check(path)) => {
            check(rt, alloc, path, (writer, errors), why)?;
            Ok(None)
        }
        Ok(ServerWords::Entity(told)) => Ok(Some(entity_at(rt, alloc, told, explains, why)?)),
        Err(fault) => {
            if explains && fault == WordsFault::Usage {
                let _has_memory = push_usage(alloc, why, words);
            }
            let text = asked_text(fault, server_help(), server_version())?;
            print(writer, text)?;
            Ok(None)
        }
    }
}

impl Start<'_> {
    /// Adds why a start ended by a fault, as far as that can be seen and is wanted.
    pub fn push_cause<R: Net + Files>(
        &self,
        rt: &R,
        alloc: Global,
        why: &mut String,
        fault: &ProgramFault,
    ) {
        match &self.told {
            None => {
                let _has_memory = push_cause(rt, alloc, why, &self.settings, fault);
            }
            Some(told) => push_entity_cause(rt, alloc, (told, self.explains), why, fault),
        }
    }
}

// Adds which word of the server's line is wrong.
fn push_usage(alloc: Global, why: &mut String, line: &[String]) -> Result<(), AllocError> {
    push_server_complaint(alloc, why, line)?;
    writeln!(why, "`cfdp_server --help` lists the options")
}

// The station of a file, whose folders are made if they aren't there.
fn station_at<'w, R: Files, E: Write>(
    rt: &R,
    alloc: Global,
    path: &str,
    errors: &mut E,
    why: &mut String,
) -> Result<(Start<'w>, Config), ProgramFault> {
    let text = text_at(rt, alloc, path, why)?;
    let (settings, config) = match read_station(alloc, text.as_str(), path) {
        Ok(told) => told,
        Err(fault) => return Err(station_fault(alloc, (path, text.as_str()), fault, why)),
    };
    make_folders(rt, &settings);
    push_log_reason(rt, why, &settings)?;
    if !why.is_empty() {
        return Err(ProgramFault::Write);
    }
    let mut notes = String::new(alloc);
    push_folder_notes(rt, alloc, &mut notes, &settings)?;
    tell_explanation(errors, notes.as_str());
    let start = Start {
        settings,
        text,
        told: None,
        explains: true,
    };
    Ok((start, config))
}

// Makes the folders that a station's file names. One that can't be made is noted later.
fn make_folders<R: Files>(rt: &R, settings: &Settings) {
    let _made = fs::create_dir_all(rt, settings.store.folder.as_str());
    if let Some(folder) = &settings.record.folder {
        let _made = fs::create_dir_all(rt, folder.as_str());
    }
}

// The entity of a configuration's file. Says why there is none, if its faults are explained.
fn entity_at<'w, R: Net + Files>(
    rt: &R,
    alloc: Global,
    told: EntityWords<'w>,
    explains: bool,
    why: &mut String,
) -> Result<(Start<'w>, Config), ProgramFault> {
    let read = read_entity(rt, alloc, told, explains);
    if let Err(fault) = &read {
        push_entity_cause(rt, alloc, (&told, explains), why, fault);
    }
    read
}

fn read_entity<'w, R: Files>(
    rt: &R,
    alloc: Global,
    told: EntityWords<'w>,
    explains: bool,
) -> Result<(Start<'w>, Config), ProgramFault> {
    let text = load_text(rt, alloc, told.config)?;
    let config = match read_config(alloc, text.as_str()) {
        Ok(config) => config,
        Err(ConfigFault::NoMemory) => return Err(ProgramFault::NoMemory),
        Err(fault) => return Err(ProgramFault::Config(fault.number())),
    };
    let settings = Settings::plain(alloc, told.bind, told.folder, told.workers)?;
    let start = Start {
        settings,
        text,
        told: Some(told),
        explains,
    };
    Ok((start, config))
}

// Adds why an entity's start ended by a fault, if its faults are explained.
fn push_entity_cause<R: Net + Files>(
    rt: &R,
    alloc: Global,
    (told, explains): (&EntityWords<'_>, bool),
    why: &mut String,
    fault: &ProgramFault,
) {
    if !explains {
        return;
    }
    let started = Started {
        bind: told.bind,
        ..Started::with_config(told.config)
    };
    let _has_memory = push_explanation(rt, alloc, why, &started, fault);
}
