//! The command line of the program.
use clap::error::ErrorKind;
use clap::{Arg, ArgAction, ArgMatches, Command, Error};
use program_words::WordsFault;
use release::{VERSION, versioned};
use std::alloc::{AllocError, Global};
use std::env::{Env, FillError};

/// What a command line asks for.
#[derive(Clone, Copy)]
pub(crate) struct ReplayWords<'a> {
    /// The path of the configuration's file; without it the script begins with the reference configuration.
    pub config: Option<&'a str>,
    /// The path of the script; without it the standard input is played.
    pub script: Option<&'a str>,
    /// Whether comments say in words what lines and answers say.
    pub explains: bool,
    /// The datagram to be explained, in hex; then nothing is played.
    pub datagram: Option<&'a str>,
}

const HELP: &str = "Plays a script of events through one CFDP entity, and prints its replies.

Usage: cfdp_replay [--config FILE] [--explain] [SCRIPT]
       cfdp_replay --explain-pdu HEX

  --config FILE      the configuration that the script begins with, or a station's file, in TOML
                     (default: the reference configuration, entity 2 with the users alice and bob)
  SCRIPT             the script's file (default: the standard input)
  --explain          prints below each reply what it says in words, in lines that begin with `# `
  --explain-pdu HEX  plays nothing: prints in words what one datagram says
  --help             prints this, and ends
  --version          prints the version, and ends

Status 0: the whole script was played, or the datagram is a PDU. 1: a line is bad, the datagram
isn't a PDU, or a fault of the program.
";

/// What `--help` prints.
pub(crate) fn replay_help() -> &'static str {
    HELP
}

/// What `--version` prints.
pub(crate) fn replay_version() -> &'static str {
    versioned!("cfdp_replay ", "\n")
}

/// Whether the command line has words after the program's own name. It allocates nothing.
pub(crate) fn has_words<R: Env>(rt: &R) -> bool {
    let mut room = [0; 1];
    !matches!(rt.arg(1, &mut room), Err(FillError::NotPresent))
}

// An option with a value.
fn valued<'a>(alloc: Global, name: &'static str) -> Arg<'a> {
    Arg::new(alloc, name).long(name).action(ArgAction::Set)
}

// The options and words of the program.
fn command<'a>(alloc: Global) -> Result<Command<'a>, AllocError> {
    Command::new(alloc, "cfdp_replay")
        .version(VERSION)
        .arg(valued(alloc, "config"))?
        .arg(
            Arg::new(alloc, "explain")
                .long("explain")
                .action(ArgAction::SetTrue),
        )?
        .arg(valued(alloc, "explain-pdu"))?
        .arg(Arg::new(alloc, "script").action(ArgAction::Set))
}

// The fault for an error of the parser.
fn fault_of(error: &Error) -> WordsFault {
    match error.kind() {
        ErrorKind::OutOfMemory => WordsFault::NoMemory,
        ErrorKind::DisplayHelp => WordsFault::Help,
        ErrorKind::DisplayVersion => WordsFault::Version,
        _ => WordsFault::Usage,
    }
}

// The words that the matches of a command line give. A datagram stands alone.
fn words_in<'a>(matches: &ArgMatches<'a>) -> Option<ReplayWords<'a>> {
    let words = ReplayWords {
        config: matches.get_str("config"),
        script: matches.get_str("script"),
        explains: matches.get_flag("explain"),
        datagram: matches.get_str("explain-pdu"),
    };
    let plays = words.config.is_some() || words.script.is_some() || words.explains;
    if words.datagram.is_some() && plays {
        return None;
    }
    Some(words)
}

/// Parses a command line of the program; its first word is the program's own name.
pub(crate) fn replay_words<'a>(
    alloc: Global,
    line: &'a [String],
) -> Result<ReplayWords<'a>, WordsFault> {
    match command(alloc) {
        Ok(command) => match command.try_get_matches_from(line) {
            Ok(matches) => words_in(&matches).ok_or(WordsFault::Usage),
            Err(error) => Err(fault_of(&error)),
        },
        Err(AllocError) => Err(WordsFault::NoMemory),
    }
}
