//! Does what the command line asks for.
use crate::explaining::explain;
use crate::words::{ReplayWords, replay_help, replay_version, replay_words};
use entity_config::{Config, ConfigFault};
use program_start::{ProgramFault, load_text, print, tell_fault};
use program_words::{WordsFault, asked_text, fault_of, line_of};
use script_explained::explain_to_end;
use script_replay::{AnswerPace, Session, play_to_end, play_with};
use station_config::read_entity;
use std::alloc::Global;
use std::env::Env;
use std::fs::File;
use std::io;
use std::io::{ErrorKind, Read, Write};
use std::rt::Files;

// The name that the program's faults begin with.
const NAME: &str = "cfdp_replay";

/// Does what the command line asks for, with these standard streams. Returns the exit status.
pub(crate) fn run<R, I, W, E>(
    rt: &R,
    input: &mut I,
    output: &mut W,
    errors: &mut E,
    pace: AnswerPace,
) -> u8
where
    R: Env + Files + AllocGlobal,
    I: Read,
    W: Write,
    E: Write,
{
    let alloc = rt.alloc();
    let ended = match line_of(rt) {
        Ok(line) => match replay_words(alloc, line.as_slice()) {
            Ok(words) => match words.datagram {
                Some(datagram) => explain(alloc, output, datagram),
                None => play(rt, &words, input, output, errors, pace),
            },
            Err(fault) => answer(output, fault),
        },
        Err(fault) => Err(fault_of(fault)),
    };
    match ended {
        Ok(status) => status,
        Err(fault) => {
            tell_fault(alloc, errors, NAME, &fault);
            1
        }
    }
}

// Prints the help or the version if the words ask for it.
fn answer<W: Write>(output: &mut W, fault: WordsFault) -> Result<u8, ProgramFault> {
    print(output, asked_text(fault, replay_help(), replay_version())?)?;
    Ok(0)
}

// Plays the script that the words name, or else the standard input.
fn play<R, I, W, E>(
    rt: &R,
    words: &ReplayWords<'_>,
    input: &mut I,
    output: &mut W,
    errors: &mut E,
    pace: AnswerPace,
) -> Result<u8, ProgramFault>
where
    R: Files + AllocGlobal,
    I: Read,
    W: Write,
    E: Write,
{
    match words.script {
        None => play_from(rt, words, input, output, errors, pace),
        Some(path) => match File::open(rt, path) {
            Ok(file) => {
                let mut file = file;
                play_from(rt, words, &mut file, output, errors, pace)
            }
            Err(error) => Err(unopened(&error)),
        },
    }
}

// The fault of a script that can't be opened.
fn unopened(error: &io::Error) -> ProgramFault {
    if error.kind() == ErrorKind::OutOfMemory {
        ProgramFault::NoMemory
    } else {
        ProgramFault::Read
    }
}

// The entity's configuration in a file, which may be a station's.
fn config_at<R: Files>(rt: &R, alloc: Global, path: &str) -> Result<Config, ProgramFault> {
    let text = load_text(rt, alloc, path)?;
    match read_entity(alloc, text.as_str()) {
        Ok(config) => Ok(config),
        Err(ConfigFault::NoMemory) => Err(ProgramFault::NoMemory),
        Err(fault) => Err(ProgramFault::Config(fault.number())),
    }
}

// Plays a script that begins with the configuration in a file, or with the reference configuration.
fn play_from<R, S, W, E>(
    rt: &R,
    words: &ReplayWords<'_>,
    script: &mut S,
    output: &mut W,
    errors: &mut E,
    pace: AnswerPace,
) -> Result<u8, ProgramFault>
where
    R: Files + AllocGlobal,
    S: Read,
    W: Write,
    E: Write,
{
    let alloc = rt.alloc();
    let config = match words.config {
        None => None,
        Some(path) => Some(config_at(rt, alloc, path)?),
    };
    if words.explains {
        let session = match config {
            None => Session::reference(alloc)?,
            Some(config) => Session::configured(alloc, config),
        };
        return Ok(explain_to_end(alloc, session, script, output, errors, pace));
    }
    match config {
        None => Ok(play_to_end(alloc, script, output, errors, pace)),
        Some(config) => Ok(play_with(alloc, config, script, output, errors, pace)),
    }
}
