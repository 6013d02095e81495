//! The command line.
use clap::error::ErrorKind;
use clap::{Arg, ArgAction, ArgMatches, Command, Error};
use release::{VERSION, versioned};
use std::alloc::{AllocError, Global};
use std::env::Env;
use std::{env, io};

/// The console's address unless the command line gives another.
const LISTEN: &str = "127.0.0.1:4580";

/// What the command line asks for.
#[derive(Clone, Copy, Debug)]
pub(crate) struct Words<'a> {
    /// The path of the station's control socket.
    pub(crate) control: &'a str,
    /// The console's address: `A.B.C.D:PORT`.
    pub(crate) listen: &'a str,
    /// A second name, with a port, by which browsers reach the console.
    pub(crate) name: Option<&'a str>,
    /// Whether commands are taken.
    pub(crate) commands: bool,
    /// The path of the file with the token.
    pub(crate) token_file: Option<&'a str>,
    /// The path of the plan of windows.
    pub(crate) windows: Option<&'a str>,
}

/// Why a command line doesn't start the console.
#[derive(Clone, Copy, Debug, PartialEq, Eq)]
pub(crate) enum WordsFault {
    Usage,
    Help,
    Version,
    NoMemory,
}

/// What `--help` prints.
pub(crate) const HELP: &str = "Shows a CFDP server in the browser, over its control socket.

Usage: cfdp_web --control PATH [--listen ADDR] [--name HOST:PORT] [--commands] [--token-file FILE]
                [--windows PLAN]

  --control PATH     the server's control socket
  --listen ADDR      where the console listens: A.B.C.D:PORT (default: 127.0.0.1:4580)
  --name HOST:PORT   another name by which browsers reach the console; :80 may be omitted (default:
                     localhost and the console's port)
  --commands         also takes commands, from anyone with the token
  --token-file FILE  a file whose first line is the token (default: a new token, which is printed)
  --windows PLAN     a plan of when links are open, as cfdp_ctl windows has it: the page shows it
  --help             prints this, and ends
  --version          prints the version, and ends

The page is at http://ADDR/. Programs find /status.json, /events, /windows.json, /metrics and
/healthz there. The console runs until it is stopped. Status 1: a fault of the program. 2: the command
line is wrong.
";

/// What is printed if the command line is wrong.
pub(crate) const USAGE_LINE: &str =
    "cfdp_web: usage: cfdp_web --control PATH [--listen ADDR] [--name HOST:PORT] [--commands] [--token-file FILE] [--windows PLAN]\n";

/// What `--version` prints.
pub(crate) const VERSION_LINE: &str = versioned!("cfdp_web ", "\n");

/// The words of the command line; the first is the program's own name.
pub(crate) fn line_of<R: Env + AllocGlobal>(rt: &R) -> Result<Vec<String>, WordsFault> {
    let mut words = Vec::new(rt.alloc());
    match env::args(rt) {
        Ok(given) => {
            for word in given {
                if words.push(word).is_err() {
                    return Err(WordsFault::NoMemory);
                }
            }
            Ok(words)
        }
        Err(error) if error.kind() == io::ErrorKind::OutOfMemory => Err(WordsFault::NoMemory),
        Err(_) => Err(WordsFault::Usage),
    }
}

/// Parses a command line; its first word is the program's own name.
pub(crate) fn words_of<'a>(alloc: Global, line: &'a [String]) -> Result<Words<'a>, WordsFault> {
    match command(alloc) {
        Ok(command) => match command.try_get_matches_from(line) {
            Ok(matches) => words_in(&matches).ok_or(WordsFault::Usage),
            Err(error) => Err(fault_of(&error)),
        },
        Err(AllocError) => Err(WordsFault::NoMemory),
    }
}

// The options of the program.
fn command<'a>(alloc: Global) -> Result<Command<'a>, AllocError> {
    let command = Command::new(alloc, "cfdp_web")
        .version(VERSION)
        .arg(valued(alloc, "control").required(true))?
        .arg(valued(alloc, "listen"))?
        .arg(valued(alloc, "name"))?
        .arg(
            Arg::new(alloc, "commands")
                .long("commands")
                .action(ArgAction::SetTrue),
        )?
        .arg(valued(alloc, "token-file"))?
        .arg(valued(alloc, "windows"))?;
    Ok(command)
}

// An option with a value.
fn valued<'a>(alloc: Global, name: &'static str) -> Arg<'a> {
    Arg::new(alloc, name).long(name).action(ArgAction::Set)
}

// The words that the matches of a command line give.
fn words_in<'a>(matches: &ArgMatches<'a>) -> Option<Words<'a>> {
    let words = Words {
        control: matches.get_str("control")?,
        listen: matches.get_str("listen").unwrap_or(LISTEN),
        name: matches.get_str("name"),
        commands: matches.get_flag("commands"),
        token_file: matches.get_str("token-file"),
        windows: matches.get_str("windows"),
    };
    if words.control.is_empty() || (words.token_file.is_some() && !words.commands) {
        return None;
    }
    Some(words)
}

// The fault for an error of the parser.
fn fault_of(error: &Error) -> WordsFault {
    match error.kind() {
        ErrorKind::OutOfMemory => WordsFault::NoMemory,
        ErrorKind::DisplayHelp => WordsFault::Help,
        ErrorKind::DisplayVersion => WordsFault::Version,
        _ => WordsFault::Usage,
    }
}
