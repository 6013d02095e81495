ghost use Rattle.std.specs.Prelude.{◌≡◌, IfOk, IfSome, false, map, string_bytes};
ghost use Rattle.clap.specs.Words.{app_of, found_of, rule_of};
ghost use Rattle.program_words.specs.Lines.{PutSays, found_in, given_by, placed, put_program};
ghost use Rattle.program_words.specs.Numbers.{class_of};

use crate::fault::WordsFault;
use crate::options::{
    fault_of, first_number, flag, is_address, is_name, limit_of, number_within, optional, required,
};
use cfdp_types::{Class, EntityId};
use clap::{Arg, ArgAction, ArgMatches, Command};
use release::{VERSION, versioned};
use std::alloc::{AllocError, Global};

/// What a command line asks to put, and how.
#[derive(Clone, Copy, Debug)]
pub struct PutWords<'a> {
    /// The path of the configuration's file.
    pub config: &'a str,
    /// The address that the program listens at: `A.B.C.D:PORT`.
    pub bind: &'a str,
    /// The name of the sending user.
    pub user: &'a str,
    /// The remote entity that receives the file.
    pub remote: EntityId,
    pub class: Class,
    /// The path of the file, and its source file name: 1 to 255 octets.
    pub source: &'a str,
    /// Its destination file name: 1 to 255 octets.
    pub destination_name: &'a str,
    /// How many octets of the file's PDUs may be sent in a second, if that is limited.
    pub rate: Option<u64>,
    /// Whether the receiver is asked to report at the end what became of the file; it matters in class 1 only.
    pub closure: bool,
    /// The number of the entity's first transaction, if not the configuration's: at most 2^63 - 1.
    pub first: Option<u64>,
    /// The path of the file that keeps where transaction numbers begin.
    pub numbers: Option<&'a str>,
    /// Whether datagrams from addresses that aren't in the configuration are dropped.
    pub known_sources: bool,
}

const HELP: &str = "Sends one file by CFDP over UDP, and prints its user's indications.

Usage: cfdp_put --config FILE --bind ADDR --user NAME --remote ID --class N [--closure]
       [--rate N] [--first N] [--numbers FILE] [--known-sources] SRC DST

  --config FILE   the configuration of the entity, in TOML
  --bind ADDR     where it listens: A.B.C.D:PORT, all in decimal
  --user NAME     the sending user, by its name in the configuration
  --remote ID     the receiving entity, by its ID in the configuration
  --class N       1 (unacknowledged) or 2 (acknowledged)
  --closure       asks the receiver, in class 1 too, to report at the end what became of the file
  --rate N        octets a second to send for the file, 1 to 1000000000 (default: no limit)
  --first N       where the numbers of transactions begin, instead of the configuration's `first`
  --numbers FILE  keeps in this file where the numbers of the next run begin
  --known-sources drops datagrams from addresses that the configuration doesn't have
  SRC             the file to be sent
  DST             its name at the receiver
  --check         with --config alone: reads FILE, prints `ok` or what is wrong with it, and ends
  --help          prints this, and ends
  --version       prints the version, and ends

Status 0: the receiver reports that it has the whole file. 2: the transaction ended otherwise; in
class 1 without --closure it always does, since the sender never learns what became of the file.
1: a fault of the program.
";

/// What `--help` of the program prints.
pub fn put_help() -> &'static str {
    HELP
}

/// What `--version` of the program prints.
pub fn put_version() -> &'static str {
    versioned!("cfdp_put ", "\n")
}

// A positional word.
fn word<'a>(alloc: Global, name: &'static str) -> Arg<'a>
    ensures rule { rule_of result ≡ placed name.entry.now }
    ensures local { result.global ≡ false }
{
    Arg::new(alloc, name).required(true).action(ArgAction::Set)
}

// The options and words of the program.
pub(crate) fn command<'a>(alloc: Global) -> Result<Command<'a>, AllocError>
    ensures { IfOk result (λ command. app_of command ≡ put_program) }
{
    let command = Command::new(alloc, "cfdp_put")
        .version(VERSION)
        .arg(required(alloc, "config"))?
        .arg(required(alloc, "bind"))?
        .arg(required(alloc, "user"))?
        .arg(required(alloc, "remote"))?
        .arg(required(alloc, "class"))?
        .arg(optional(alloc, "rate"))?
        .arg(flag(alloc, "closure"))?
        .arg(optional(alloc, "first"))?
        .arg(optional(alloc, "numbers"))?
        .arg(flag(alloc, "known-sources"))?
        .arg(word(alloc, "source"))?
        .arg(word(alloc, "target"))?;
    Ok(command)
}

// A class, from its number.
fn class_of(word: &str) -> Option<Class>
    ensures { result ≡ class_of word.now }
{
    match number_within(word, 1, 2)? {
        1 => Some(Class::One),
        _ => Some(Class::Two),
    }
}

// The words that the matches of a command line give.
fn words_in<'a>(matches: &ArgMatches<'a>) -> Option<PutWords<'a>>
    ensures { IfSome result (λ words. PutSays (found_in (found_of matches.now)) words) }
{
    let config = matches.get_str("config")?;
    let bind = matches.get_str("bind")?;
    let user = matches.get_str("user")?;
    let remote = number_within(matches.get_str("remote")?, 0, u64::MAX)?;
    let class = class_of(matches.get_str("class")?)?;
    let source = matches.get_str("source")?;
    let destination_name = matches.get_str("target")?;
    let rate = limit_of(matches.get_str("rate"))?;
    let closure = matches.get_flag("closure");
    let first = first_number(matches.get_str("first"))?;
    let numbers = matches.get_str("numbers");
    let known_sources = matches.get_flag("known-sources");
    if !is_address(bind) || !is_name(source) || !is_name(destination_name) || numbers == Some("") {
        return None;
    }
    Some(PutWords {
        config,
        bind,
        user,
        remote: EntityId(remote),
        class,
        source,
        destination_name,
        rate,
        closure,
        first,
        numbers,
        known_sources,
    })
}

// Parses a line with the program's options.
fn words_by<'a>(command: Command<'a>, line: &'a [String]) -> Result<PutWords<'a>, WordsFault>
    requires { app_of command ≡ put_program }
    ensures { IfOk result (λ words. PutSays (given_by put_program (map string_bytes line.entry.now)) words) }
{
    match command.try_get_matches_from(line) {
        Ok(matches) => words_in(&matches).ok_or(WordsFault::Usage),
        Err(error) => Err(fault_of(&error)),
    }
}

/// Parses a command line of the program; its first word is the program's own name.
pub fn put_words<'a>(alloc: Global, line: &'a [String]) -> Result<PutWords<'a>, WordsFault>
    ensures { IfOk result (λ words. PutSays (given_by put_program (map string_bytes line.entry.now)) words) }
{
    match command(alloc) {
        Ok(command) => words_by(command, line),
        Err(AllocError) => Err(WordsFault::NoMemory),
    }
}
