//! Explains to a person what is wrong with a command line.
use crate::options::{first_number, is_address, is_name, limit_of, number_within};
use crate::{checking, putting, serving};
use clap::{ArgMatches, Error};
use std::alloc::{AllocError, Global};

/// Adds what is wrong with a command line of the server; nothing if it is right.
pub fn push_server_complaint(
    alloc: Global,
    text: &mut String,
    line: &[String],
) -> Result<(), AllocError> {
    match serving::command(alloc)?.try_get_matches_from(line) {
        Ok(matches) => push_wrong(text, wrong_for_server(&matches)),
        Err(error) => push_error(alloc, text, &error),
    }
}

/// Adds what is wrong with a command line of the program that puts a file; nothing if it is right.
pub fn push_put_complaint(
    alloc: Global,
    text: &mut String,
    line: &[String],
) -> Result<(), AllocError> {
    match putting::command(alloc)?.try_get_matches_from(line) {
        Ok(matches) => push_wrong(text, wrong_for_put(&matches)),
        Err(error) => push_error(alloc, text, &error),
    }
}

/// Adds what is wrong with a command line that asks for a check of the configuration; nothing if it is right.
pub fn push_check_complaint(
    alloc: Global,
    text: &mut String,
    line: &[String],
) -> Result<(), AllocError> {
    match checking::command(alloc)?.try_get_matches_from(line) {
        Ok(_) => Ok(()),
        Err(error) => push_error(alloc, text, &error),
    }
}

// Adds the parser's message, up to its usage, in one line.
fn push_error(alloc: Global, text: &mut String, error: &Error) -> Result<(), AllocError> {
    let mut told = String::new(alloc);
    write!(told, "{error}")?;
    let message = told.as_str();
    let mut has_begun = false;
    for line in message.strip_prefix("error: ").unwrap_or(message).lines() {
        let line = line.trim();
        if line.is_empty() {
            break;
        }
        if has_begun {
            text.push_str(" ")?;
        }
        text.push_str(line)?;
        has_begun = true;
    }
    text.push_str("\n")
}

fn push_wrong(text: &mut String, wrong: Option<&str>) -> Result<(), AllocError> {
    match wrong {
        Some(wrong) => writeln!(text, "{wrong}"),
        None => Ok(()),
    }
}

// What is wrong with the words of a server's line, if anything.
fn wrong_for_server(matches: &ArgMatches<'_>) -> Option<&'static str> {
    if serving::words_in(matches).is_some() {
        return None;
    }
    let starts = matches.get_str("config").is_some() && matches.get_str("folder").is_some();
    if !starts || matches.get_str("check").is_some() || matches.get_str("station").is_some() {
        return Some("it takes STATION, or --check FILE, or --config, --bind and --folder");
    }
    if !matches.get_str("bind").is_some_and(is_address) {
        return Some(ADDRESS);
    }
    if matches.get_str("folder") == Some("") {
        return Some("--folder takes the path of a folder");
    }
    Some("--workers takes a number from 1 to 16")
}

// What is wrong with the value of one of the put's options or words, if anything.
fn wrong_for_put(matches: &ArgMatches<'_>) -> Option<&'static str> {
    if !matches.get_str("bind").is_some_and(is_address) {
        return Some(ADDRESS);
    }
    if !matches
        .get_str("remote")
        .is_some_and(|word| number_within(word, 0, u64::MAX).is_some())
    {
        return Some("--remote takes the number of an entity");
    }
    if !matches
        .get_str("class")
        .is_some_and(|word| number_within(word, 1, 2).is_some())
    {
        return Some("--class takes 1 or 2");
    }
    if limit_of(matches.get_str("rate")).is_none() {
        return Some("--rate takes a number from 1 to 1000000000");
    }
    if first_number(matches.get_str("first")).is_none() {
        return Some("--first takes a number up to 9223372036854775807");
    }
    if !is_word(matches.get_str("source")) || !is_word(matches.get_str("target")) {
        return Some("a file's name has 1 to 255 octets");
    }
    numbers_complaint(matches)
}

const ADDRESS: &str = "--bind takes A.B.C.D:PORT, all in decimal and without leading zeros";

fn is_word(name: Option<&str>) -> bool {
    name.is_some_and(is_name)
}

fn numbers_complaint(matches: &ArgMatches<'_>) -> Option<&'static str> {
    if matches.get_str("numbers") == Some("") {
        return Some("--numbers takes the path of a file");
    }
    None
}
