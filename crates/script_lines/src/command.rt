//! Parses a line of a script.
ghost use Rattle.std.specs.Prelude.{◌≡◌, IfOk};
ghost use Rattle.std.specs.Option.{option_copied};
ghost use Rattle.script_lines.specs.Commands.{command_of, command_by, deliver_of, gather_of, other_by, asked_of, asked_from, pump_of, timer_of, timer_from, stored_of, stored_from, take_of, of_transaction};
ghost use Rattle.line_words.specs.Words.{words_left};

use crate::gathered::Gathered;
use crate::operands::{answer_of, kind_of, octets_of, stamp_of};
use crate::put::put;
use crate::setting::set;
use cfdp_types::Octets;
use entity_config::{Config, Setting};
use entity_routing::WorldEvent;
use line_words::{Rest, key_from, last_word, next_word, request_for, split_word, user_of};
use std::alloc::{AllocError, Global};

/// What a line of a script asks for.
#[derive(Drop)]
pub enum Command {
    /// Changes the configuration.
    Set(Setting),
    /// Gathers octets for the file of the next put.
    File(Octets),
    /// An event for the entity.
    Event(WorldEvent),
    /// A user, by number, takes the bundle at the front of its queue.
    Take(usize),
    /// The line is empty or a comment.
    Nothing,
}

/// Parses a line of a script, given the users and lanes of a configuration and the octets that earlier lines have
/// gathered. Returns `None` for a bad line.
pub fn command_of(
    alloc: Global,
    config: &Config,
    gathered: &Gathered,
    line: &[u8],
) -> Result<Option<Command>, AllocError>
    ensures { IfOk result (λ command. command ≡ command_of config.now gathered.now line.now) }
{
    if line.is_empty() || line[0] == b'#' {
        return Ok(Some(Command::Nothing));
    }
    let (kind, operands) = split_word(line);
    by_kind(alloc, config, gathered, kind, operands)
}

fn by_kind(
    alloc: Global,
    config: &Config,
    gathered: &Gathered,
    kind: &[u8],
    operands: Rest<'_>,
) -> Result<Option<Command>, AllocError>
    ensures { IfOk result (λ command. command ≡ command_by config.now gathered.now kind.now
        (words_left (option_copied operands.entry))) }
{
    if kind == b"pdu".as_slice() {
        deliver(alloc, operands)
    } else if kind == b"put".as_slice() {
        put(alloc, config, gathered, operands)
    } else if kind == b"file".as_slice() {
        file(alloc, operands)
    } else {
        Ok(other(config, kind, operands))
    }
}

// Parses a line that has no file and no PDU.
fn other(config: &Config, kind: &[u8], operands: Rest<'_>) -> Option<Command>
    ensures { result ≡ other_by config.now kind.now (words_left (option_copied operands.entry)) }
{
    if kind == b"take".as_slice() {
        take(config, operands)
    } else if kind == b"set".as_slice() {
        set(operands)
    } else {
        of_transaction(config, kind, operands)
    }
}

// Parses a line about one transaction: an event, or a user's request.
fn of_transaction(config: &Config, kind: &[u8], operands: Rest<'_>) -> Option<Command>
    ensures { result ≡ of_transaction config.now kind.now (words_left (option_copied operands.entry)) }
{
    if kind == b"stored".as_slice() {
        stored(operands)
    } else if kind == b"timer".as_slice() {
        timer(operands)
    } else if kind == b"pump".as_slice() {
        pump(operands)
    } else {
        asked(config, kind, operands)
    }
}

fn deliver(alloc: Global, operands: Rest<'_>) -> Result<Option<Command>, AllocError>
    ensures { IfOk result
        (λ command. command ≡ deliver_of (words_left (option_copied operands.entry))) }
{
    let Some(word) = last_word(operands) else {
        return Ok(None);
    };
    match octets_of(alloc, word)? {
        Some(octets) => Ok(Some(Command::Event(WorldEvent::Deliver(octets)))),
        None => Ok(None),
    }
}

fn file(alloc: Global, operands: Rest<'_>) -> Result<Option<Command>, AllocError>
    ensures { IfOk result
        (λ command. command ≡ gather_of (words_left (option_copied operands.entry))) }
{
    let Some(word) = last_word(operands) else {
        return Ok(None);
    };
    match octets_of(alloc, word)? {
        Some(octets) => Ok(Some(Command::File(octets))),
        None => Ok(None),
    }
}

fn asked(config: &Config, kind: &[u8], operands: Rest<'_>) -> Option<Command>
    ensures { result ≡ asked_of config.now kind.now (words_left (option_copied operands.entry)) }
{
    let (user, operands) = next_word(operands)?;
    let (source, operands) = next_word(operands)?;
    asked_from(config, kind, user, source, last_word(operands)?)
}

fn asked_from(
    config: &Config,
    kind: &[u8],
    user: &[u8],
    source: &[u8],
    seq: &[u8],
) -> Option<Command>
    ensures { result ≡ asked_from config.now kind.now user.now source.now seq.now }
{
    let user = user_of(config, user)?;
    let key = key_from(source, seq)?;
    let request = request_for(kind, key)?;
    Some(Command::Event(WorldEvent::Request(user, request)))
}

fn pump(operands: Rest<'_>) -> Option<Command>
    ensures { result ≡ pump_of (words_left (option_copied operands.entry)) }
{
    let (source, operands) = next_word(operands)?;
    let key = key_from(source, last_word(operands)?)?;
    Some(Command::Event(WorldEvent::Pump(key)))
}

fn timer(operands: Rest<'_>) -> Option<Command>
    ensures { result ≡ timer_of (words_left (option_copied operands.entry)) }
{
    let (source, operands) = next_word(operands)?;
    let (seq, operands) = next_word(operands)?;
    let (kind, operands) = next_word(operands)?;
    timer_from(source, seq, kind, last_word(operands)?)
}

fn timer_from(source: &[u8], seq: &[u8], kind: &[u8], stamp: &[u8]) -> Option<Command>
    ensures { result ≡ timer_from source.now seq.now kind.now stamp.now }
{
    let key = key_from(source, seq)?;
    let kind = kind_of(kind)?;
    let stamp = stamp_of(stamp)?;
    Some(Command::Event(WorldEvent::Timer(key, kind, stamp)))
}

fn stored(operands: Rest<'_>) -> Option<Command>
    ensures { result ≡ stored_of (words_left (option_copied operands.entry)) }
{
    let (source, operands) = next_word(operands)?;
    let (seq, operands) = next_word(operands)?;
    let (stamp, operands) = next_word(operands)?;
    stored_from(source, seq, stamp, last_word(operands)?)
}

fn stored_from(source: &[u8], seq: &[u8], stamp: &[u8], answer: &[u8]) -> Option<Command>
    ensures { result ≡ stored_from source.now seq.now stamp.now answer.now }
{
    let key = key_from(source, seq)?;
    let stamp = stamp_of(stamp)?;
    let kept = answer_of(answer)?;
    Some(Command::Event(WorldEvent::Stored(key, stamp, kept)))
}

fn take(config: &Config, operands: Rest<'_>) -> Option<Command>
    ensures { result ≡ take_of config.now (words_left (option_copied operands.entry)) }
{
    let user = user_of(config, last_word(operands)?)?;
    Some(Command::Take(user))
}
