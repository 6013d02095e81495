//! Lines that send no file.
ghost use Rattle.std.specs.Prelude.{◌≡◌};
ghost use Rattle.server_lines.specs.Commands.{other_by, outbox_by, outbox_of, drop_of, asked_of, asked_from, take_of, tuning_by, trace_of, journal_of, status_of, quit_of};

use crate::command::Command;
use crate::tuning::{follow, hold, rate, release, reopen};
use entity_config::Config;
use line_words::{Words, key_from, number_of, request_for, user_of};

/// Parses a command that allocates nothing.
pub(crate) fn other(config: &Config, kind: &[u8], operands: Words<'_>) -> Option<Command>
    ensures { result ≡ other_by config.now kind.now operands.entry }
{
    if kind == b"take".as_slice() {
        take(config, operands)
    } else if kind == b"trace".as_slice() {
        trace(operands)
    } else if kind == b"journal".as_slice() {
        journal(operands)
    } else if kind == b"status".as_slice() {
        status(operands)
    } else if kind == b"follow".as_slice() {
        follow(operands)
    } else if kind == b"quit".as_slice() {
        quit(operands)
    } else {
        outbox_command(config, kind, operands)
    }
}

// Parses a command about the outbox or a hold, or else a user's request.
fn outbox_command(config: &Config, kind: &[u8], operands: Words<'_>) -> Option<Command>
    ensures { result ≡ outbox_by config.now kind.now operands.entry }
{
    if kind == b"outbox".as_slice() {
        outbox(operands)
    } else if kind == b"drop".as_slice() {
        drop_from(operands)
    } else if kind == b"hold".as_slice() {
        hold(operands)
    } else if kind == b"release".as_slice() {
        release(operands)
    } else {
        tuning(config, kind, operands)
    }
}

// Parses what changes the server, or else a user's request.
fn tuning(config: &Config, kind: &[u8], operands: Words<'_>) -> Option<Command>
    ensures { result ≡ tuning_by config.now kind.now operands.entry }
{
    if kind == b"rate".as_slice() {
        rate(operands)
    } else if kind == b"reopen".as_slice() {
        reopen(operands)
    } else {
        asked(config, kind, operands)
    }
}

fn outbox(operands: Words<'_>) -> Option<Command>
    ensures { result ≡ outbox_of operands.entry }
{
    match operands.next() {
        None => Some(Command::Outbox),
        Some(_) => None,
    }
}

fn drop_from(operands: Words<'_>) -> Option<Command>
    ensures { result ≡ drop_of operands.entry }
{
    let number = number_of(operands.last()?)?;
    Some(Command::Drop(number))
}

fn take(config: &Config, operands: Words<'_>) -> Option<Command>
    ensures { result ≡ take_of config.now operands.entry }
{
    let user = user_of(config, operands.last()?)?;
    Some(Command::Take(user))
}

fn trace(operands: Words<'_>) -> Option<Command>
    ensures { result ≡ trace_of operands.entry }
{
    let (source, operands) = operands.next()?;
    let key = key_from(source, operands.last()?)?;
    Some(Command::Trace(key))
}

fn journal(operands: Words<'_>) -> Option<Command>
    ensures { result ≡ journal_of operands.entry }
{
    let (source, operands) = operands.next()?;
    let key = key_from(source, operands.last()?)?;
    Some(Command::Journal(key))
}

fn status(operands: Words<'_>) -> Option<Command>
    ensures { result ≡ status_of operands.entry }
{
    match operands.next() {
        None => Some(Command::Status),
        Some(_) => None,
    }
}

fn quit(operands: Words<'_>) -> Option<Command>
    ensures { result ≡ quit_of operands.entry }
{
    match operands.next() {
        None => Some(Command::Quit),
        Some(_) => None,
    }
}

fn asked(config: &Config, kind: &[u8], operands: Words<'_>) -> Option<Command>
    ensures { result ≡ asked_of config.now kind.now operands.entry }
{
    let (user, operands) = operands.next()?;
    let (source, operands) = operands.next()?;
    asked_from(config, kind, user, source, operands.last()?)
}

fn asked_from(
    config: &Config,
    kind: &[u8],
    user: &[u8],
    source: &[u8],
    seq: &[u8],
) -> Option<Command>
    ensures { result ≡ asked_from config.now kind.now user.now source.now seq.now }
{
    let user = user_of(config, user)?;
    let key = key_from(source, seq)?;
    let request = request_for(kind, key)?;
    Some(Command::Ask(user, request))
}
