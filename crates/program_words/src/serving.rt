ghost use Rattle.std.specs.Prelude.{◌≡◌, IfOk, IfSome, false, map, string_bytes};
ghost use Rattle.clap.specs.Words.{app_of, found_of, rule_of};
ghost use Rattle.program_words.specs.Lines.{ServerSays, found_in, given_by, perhaps_placed, server_program};

use crate::fault::WordsFault;
use crate::options::{fault_of, is_address, optional, workers_of};
use clap::{Arg, ArgAction, ArgMatches, Command};
use release::{VERSION, versioned};
use std::alloc::{AllocError, Global};

/// What the server's command line asks for.
#[derive(Clone, Copy, Debug)]
pub enum ServerWords<'a> {
    /// To serve the station of the file at this path.
    Station(&'a str),
    /// To check that file alone.
    Check(&'a str),
    /// To serve an entity by the lines of the standard input.
    Entity(EntityWords<'a>),
}

/// The entity that a command line starts without a station's file.
#[derive(Clone, Copy, Debug)]
pub struct EntityWords<'a> {
    /// The path of the configuration's file.
    pub config: &'a str,
    /// The address that the server listens at: `A.B.C.D:PORT`.
    pub bind: &'a str,
    /// The folder for received files.
    pub folder: &'a str,
    /// How many workers bring datagrams to their lanes: 1 to 16.
    pub workers: u64,
}

const HELP: &str = "Receives and sends files by CFDP over UDP, as one entity.

Usage: cfdp_server STATION
       cfdp_server --check FILE
       cfdp_server --config FILE --bind ADDR --folder DIR [--workers N]

  STATION         the station's file, in TOML: it says where the station listens, where files are
                  kept, and where clients command it. The server takes what users receive,
                  reports it as events, and counts it
  --check FILE    reads a station's file or an entity's configuration, prints `ok` or what is
                  wrong with it, and ends
  --config FILE   the configuration of the entity, in TOML; commands come from standard input
  --bind ADDR     where it listens: A.B.C.D:PORT, all in decimal
  --folder DIR    where received files are kept
  --workers N     threads that take datagrams, 1 to 16 (default: 4)
  --help          prints this, and ends
  --version       prints the version, and ends

Commands, one on each line, over the station's socket or on standard input:
  put USER LANE CLASS DEST SRC DST [closure]
  send USER CLASS DEST SRC DST [closure] [urgent] [as NAME]
  outbox
  drop NUMBER
  hold|release ID|all
  release ID SECONDS
  rate [ID] N|off
  cancel|suspend|resume|report|abandon USER SOURCE SEQ
  take USER
  trace SOURCE SEQ
  journal SOURCE SEQ
  status
  reopen
  quit
Only over the socket:
  follow [N] [detail|info|warning]
";

/// What `--help` of the server prints.
pub fn server_help() -> &'static str {
    HELP
}

/// What `--version` of the server prints.
pub fn server_version() -> &'static str {
    versioned!("cfdp_server ", "\n")
}

// A positional word that may be absent.
fn word<'a>(alloc: Global, name: &'static str) -> Arg<'a>
    ensures rule { rule_of result ≡ perhaps_placed name.entry.now }
    ensures local { result.global ≡ false }
{
    Arg::new(alloc, name).action(ArgAction::Set)
}

// The options and the word of the server.
pub(crate) fn command<'a>(alloc: Global) -> Result<Command<'a>, AllocError>
    ensures { IfOk result (λ command. app_of command ≡ server_program) }
{
    let command = Command::new(alloc, "cfdp_server")
        .version(VERSION)
        .arg(optional(alloc, "config"))?
        .arg(optional(alloc, "bind"))?
        .arg(optional(alloc, "folder"))?
        .arg(optional(alloc, "workers"))?
        .arg(optional(alloc, "check"))?
        .arg(word(alloc, "station"))?;
    Ok(command)
}

/// The words that the matches of a command line give.
pub(crate) fn words_in<'a>(matches: &ArgMatches<'a>) -> Option<ServerWords<'a>>
    ensures { IfSome result (λ words. ServerSays (found_in (found_of matches.now)) words) }
{
    let (config, bind) = (matches.get_str("config"), matches.get_str("bind"));
    let (folder, workers) = (matches.get_str("folder"), matches.get_str("workers"));
    let (check, station) = (matches.get_str("check"), matches.get_str("station"));
    match (config, bind, folder, workers, check, station) {
        (None, None, None, None, None, Some(path)) => Some(ServerWords::Station(path)),
        (None, None, None, None, Some(path), None) => Some(ServerWords::Check(path)),
        (Some(config), Some(bind), Some(folder), _, None, None) => {
            let workers = workers_of(workers)?;
            if !is_address(bind) || folder.is_empty() {
                return None;
            }
            Some(ServerWords::Entity(EntityWords {
                config,
                bind,
                folder,
                workers,
            }))
        }
        _ => None,
    }
}

// Parses a line with the program's options.
fn words_by<'a>(command: Command<'a>, line: &'a [String]) -> Result<ServerWords<'a>, WordsFault>
    requires { app_of command ≡ server_program }
    ensures { IfOk result (λ words. ServerSays (given_by server_program (map string_bytes line.entry.now)) words) }
{
    match command.try_get_matches_from(line) {
        Ok(matches) => words_in(&matches).ok_or(WordsFault::Usage),
        Err(error) => Err(fault_of(&error)),
    }
}

/// Parses a command line of the server; its first word is the program's own name.
pub fn server_words<'a>(alloc: Global, line: &'a [String]) -> Result<ServerWords<'a>, WordsFault>
    ensures { IfOk result (λ words. ServerSays (given_by server_program (map string_bytes line.entry.now)) words) }
{
    match command(alloc) {
        Ok(command) => words_by(command, line),
        Err(AllocError) => Err(WordsFault::NoMemory),
    }
}
