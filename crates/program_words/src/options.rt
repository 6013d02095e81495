//! What both command lines share.
ghost use Rattle.std.specs.Prelude.{◌≡◌, false, true};
ghost use Rattle.std.specs.Option.{option_map};
ghost use Rattle.clap.specs.Words.{rule_of};
ghost use Rattle.program_words.specs.Lines.{flag, valued};
ghost use Rattle.program_words.specs.Numbers.{first_number, limit_of, number_within, workers_of};

use crate::fault::WordsFault;
use cfdp_types::limits::{CONFIGURED_NUMBER, NAME_OCTETS};
use clap::error::ErrorKind;
use clap::{Arg, ArgAction, Error};
use line_words::decimal;
use std::alloc::Global;
use std::net::SocketAddrV4;

// The greatest limit that can be asked for, in octets a second.
const MOST_OCTETS_A_SECOND: u64 = 1_000_000_000;

/// An option with a value, which has to be given.
pub(crate) fn required<'a>(alloc: Global, name: &'static str) -> Arg<'a>
    ensures rule { rule_of result ≡ valued name.entry.now true }
    ensures local { result.global ≡ false }
{
    optional(alloc, name).required(true)
}

/// An option with a value.
pub(crate) fn optional<'a>(alloc: Global, name: &'static str) -> Arg<'a>
    ensures rule { rule_of result ≡ valued name.entry.now false }
    ensures local { result.global ≡ false }
{
    Arg::new(alloc, name).long(name).action(ArgAction::Set)
}

/// An option without a value, present or absent.
pub(crate) fn flag<'a>(alloc: Global, name: &'static str) -> Arg<'a>
    ensures rule { rule_of result ≡ flag name.entry.now }
    ensures local { result.global ≡ false }
{
    Arg::new(alloc, name).long(name).action(ArgAction::SetTrue)
}

/// The fault for an error of the parser.
pub(crate) fn fault_of(error: &Error) -> WordsFault {
    match error.kind() {
        ErrorKind::OutOfMemory => WordsFault::NoMemory,
        ErrorKind::DisplayHelp => WordsFault::Help,
        ErrorKind::DisplayVersion => WordsFault::Version,
        _ => WordsFault::Usage,
    }
}

/// The number that a word writes in decimal digits, if it is within a range.
pub(crate) fn number_within(word: &str, least: u64, most: u64) -> Option<u64>
    ensures { result ≡ number_within least most word.now }
{
    octets_within(word.as_bytes(), least, most)
}

/// The same for a word's octets.
pub(crate) fn octets_within(word: &[u8], least: u64, most: u64) -> Option<u64>
    ensures { result ≡ number_within least most word.now }
{
    let number = decimal(word, most)?;
    if number < least { None } else { Some(number) }
}

/// Whether a word is an address as in a configuration: four numbers and a port, none with leading zeros.
pub(crate) fn is_address(word: &str) -> bool {
    if word.parse::<SocketAddrV4>().is_err() {
        return false;
    }
    match word.split_once(':') {
        Some((_, port)) => port == "0" || !port.starts_with('0'),
        None => false,
    }
}

/// Whether a word may be a file's name: 1 to 255 octets.
pub(crate) fn is_name(word: &str) -> bool {
    !word.is_empty() && word.len() <= NAME_OCTETS
}

/// The limit in octets a second: `Some(None)` without a word, `None` if the word is not such a limit.
pub(crate) fn limit_of(word: Option<&str>) -> Option<Option<u64>>
    ensures { result ≡ limit_of (option_map (λ word. word.now) word.entry) }
{
    match word {
        None => Some(None),
        Some(word) => Some(Some(number_within(word, 1, MOST_OCTETS_A_SECOND)?)),
    }
}

/// The number of the first transaction, likewise.
pub(crate) fn first_number(word: Option<&str>) -> Option<Option<u64>>
    ensures { result ≡ first_number (option_map (λ word. word.now) word.entry) }
{
    match word {
        None => Some(None),
        Some(word) => Some(Some(number_within(word, 0, CONFIGURED_NUMBER)?)),
    }
}

/// How many workers a word asks for; 4 without a word.
pub(crate) fn workers_of(word: Option<&str>) -> Option<u64>
    ensures { result ≡ workers_of (option_map (λ word. word.now) word.entry) }
{
    match word {
        None => Some(4),
        Some(word) => number_within(word, 1, 16),
    }
}
