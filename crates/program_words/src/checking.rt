//! The command line that only checks a configuration.
ghost use Rattle.std.specs.Prelude.{◌≡◌, IfOk, IfSome, Some, codes, map, string_bytes};
ghost use Rattle.clap.specs.Words.{app_of, found_of};
ghost use Rattle.program_words.specs.Lines.{check_program, found_in, given_by};

use crate::fault::WordsFault;
use crate::options::{fault_of, flag, required};
use clap::{ArgMatches, Command};
use release::VERSION;
use std::alloc::{AllocError, Global};

/// Whether a command line asks for a check of the configuration: `--check` before the word `--`, after which names
/// follow.
pub fn asks_for_check(line: &[String]) -> bool {
    has_flag(line, "--check")
}

/// Whether a command line asks for explanations of faults: `--explain`, likewise.
pub fn asks_to_explain(line: &[String]) -> bool {
    has_flag(line, "--explain")
}

// Whether a word is among those before the word `--`.
fn has_flag(line: &[String], flag: &str) -> bool {
    for word in line {
        if word.as_str() == flag {
            return true;
        }
        if word.as_str() == "--" {
            return false;
        }
    }
    false
}

// The options of a check.
pub(crate) fn command<'a>(alloc: Global) -> Result<Command<'a>, AllocError>
    ensures { IfOk result (λ command. app_of command ≡ check_program) }
{
    let command = Command::new(alloc, "check")
        .version(VERSION)
        .arg(required(alloc, "config"))?
        .arg(flag(alloc, "check"))?
        .arg(flag(alloc, "explain"))?;
    Ok(command)
}

// The path given by the matches of a command line.
fn path_in<'a>(matches: &ArgMatches<'a>) -> Option<&'a str>
    ensures { IfSome result (λ path. (found_in (found_of matches.now)).first (codes "config") ≡ Some path.now) }
{
    matches.get_str("config")
}

// Parses a line with the options of a check.
fn path_by<'a>(command: Command<'a>, line: &'a [String]) -> Result<&'a str, WordsFault>
    requires { app_of command ≡ check_program }
    ensures { IfOk result (λ path. (given_by check_program (map string_bytes line.entry.now)).first (codes "config") ≡ Some path.now) }
{
    match command.try_get_matches_from(line) {
        Ok(matches) => path_in(&matches).ok_or(WordsFault::Usage),
        Err(error) => Err(fault_of(&error)),
    }
}

/// The path of the configuration that a command line asks to check; its first word is the program's own name. Such a
/// line has no other option but `--explain`.
pub fn check_words<'a>(alloc: Global, line: &'a [String]) -> Result<&'a str, WordsFault>
    ensures { IfOk result (λ path. (given_by check_program (map string_bytes line.entry.now)).first (codes "config") ≡ Some path.now) }
{
    match command(alloc) {
        Ok(command) => path_by(command, line),
        Err(AllocError) => Err(WordsFault::NoMemory),
    }
}
