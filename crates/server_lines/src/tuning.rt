//! Lines that change the server while it runs, or watch a part of it.
ghost use Rattle.std.specs.Prelude.{◌≡◌};
ghost use Rattle.server_lines.specs.Commands.{follow_by, follow_of, hold_of, positive_of, rate_all, rate_from, rate_in, rate_of, release_alone, release_for, release_of, reopen_of};

use crate::command::{Command, Tuning};
use cfdp_types::EntityId;
use event_levels::Level;
use line_words::{Words, decimal, number_of};

// The greatest limit, in octets a second.
const MOST_OCTETS_A_SECOND: u64 = 1_000_000_000;

/// The seconds of a day.
pub(crate) const A_DAY: u64 = 86_400;

/// A number from 1 to a limit.
pub(crate) fn positive_of(word: &[u8], most: u64) -> Option<u64>
    ensures { result ≡ positive_of most word.now }
{
    let number = decimal(word, most)?;
    if number == 0 { None } else { Some(number) }
}

/// A limit in octets a second, or none for `off`.
pub(crate) fn rate_in(word: &[u8]) -> Option<Option<u64>>
    ensures { result ≡ rate_in word.now }
{
    if word == b"off".as_slice() {
        return Some(None);
    }
    let limit = positive_of(word, MOST_OCTETS_A_SECOND)?;
    Some(Some(limit))
}

/// Parses the limit of a remote entity, or of all.
pub(crate) fn rate(operands: Words<'_>) -> Option<Command>
    ensures { result ≡ rate_of operands.entry }
{
    let (word, operands) = operands.next()?;
    match operands.next() {
        None => rate_all(word),
        Some((limit, operands)) => rate_from(word, limit, operands),
    }
}

fn rate_all(limit: &[u8]) -> Option<Command>
    ensures { result ≡ rate_all limit.now }
{
    let limit = rate_in(limit)?;
    Some(Command::Tune(Tuning::Rate(None, limit)))
}

fn rate_from(remote: &[u8], limit: &[u8], operands: Words<'_>) -> Option<Command>
    ensures { result ≡ rate_from remote.now limit.now operands.entry }
{
    if operands.next().is_some() {
        return None;
    }
    let remote = number_of(remote)?;
    let limit = rate_in(limit)?;
    Some(Command::Tune(Tuning::Rate(Some(EntityId(remote)), limit)))
}

/// Parses which link to hold, or all.
pub(crate) fn hold(operands: Words<'_>) -> Option<Command>
    ensures { result ≡ hold_of operands.entry }
{
    let word = operands.last()?;
    if word == b"all".as_slice() {
        return Some(Command::Tune(Tuning::HoldAll));
    }
    let remote = number_of(word)?;
    Some(Command::Hold(EntityId(remote)))
}

/// Parses which link to open again, or all; for one link also for how long.
pub(crate) fn release(operands: Words<'_>) -> Option<Command>
    ensures { result ≡ release_of operands.entry }
{
    let (word, operands) = operands.next()?;
    match operands.next() {
        None => release_alone(word),
        Some((seconds, operands)) => release_for(word, seconds, operands),
    }
}

fn release_alone(word: &[u8]) -> Option<Command>
    ensures { result ≡ release_alone word.now }
{
    if word == b"all".as_slice() {
        return Some(Command::Tune(Tuning::ReleaseAll));
    }
    let remote = number_of(word)?;
    Some(Command::Release(EntityId(remote)))
}

fn release_for(remote: &[u8], seconds: &[u8], operands: Words<'_>) -> Option<Command>
    ensures { result ≡ release_for remote.now seconds.now operands.entry }
{
    if operands.next().is_some() {
        return None;
    }
    let remote = number_of(remote)?;
    let seconds = positive_of(seconds, A_DAY)?;
    Some(Command::Tune(Tuning::ReleaseFor(EntityId(remote), seconds)))
}

/// Parses how many of the last events are sent, and from which level on.
pub(crate) fn follow(operands: Words<'_>) -> Option<Command>
    ensures { result ≡ follow_of operands.entry }
{
    let Some((word, operands)) = operands.next() else {
        return Some(Command::Follow(0));
    };
    if let Some(level) = Level::named(word) {
        return match operands.next() {
            None => Some(Command::Tune(Tuning::FollowFrom(0, level))),
            Some(_) => None,
        };
    }
    let count = number_of(word)?;
    follow_by(count, operands)
}

fn follow_by(count: u64, operands: Words<'_>) -> Option<Command>
    ensures { result ≡ follow_by count operands.entry }
{
    let Some((word, operands)) = operands.next() else {
        return Some(Command::Follow(count));
    };
    let level = Level::named(word)?;
    match operands.next() {
        None => Some(Command::Tune(Tuning::FollowFrom(count, level))),
        Some(_) => None,
    }
}

/// Parses the command that opens the log anew.
pub(crate) fn reopen(operands: Words<'_>) -> Option<Command>
    ensures { result ≡ reopen_of operands.entry }
{
    match operands.next() {
        None => Some(Command::Tune(Tuning::Reopen)),
        Some(_) => None,
    }
}
