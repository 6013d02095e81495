//! Reads the matches of a command line.
ghost use Rattle.std.specs.Prelude.{IfOk, IfSome};
ghost use Rattle.ctl_words.specs.Commands.{IsWithin};

use crate::choosing::{act_asked, history_task};
use crate::command::command;
use crate::fault::WordsFault;
use crate::planning::{resend_task, windows_task};
use crate::text::command_text;
use crate::watching::watch_task;
use crate::words::{
    Colour, CtlWords, FollowWords, OutboxWords, SendWords, StatusWords, Task, TransactionWord,
};
use clap::error::ErrorKind;
use clap::{ArgMatches, Error};
use std::alloc::{AllocError, Global};

// The most seconds to wait for a server.
const MOST_PATIENCE: u64 = 86_400;

// The most events that a server keeps.
const MOST_EVENTS: u64 = 1_024;

// The options of `status`, `follow`, `outbox` and `send`, and those of all commands.
const STATUS_OPTIONS: [&str; 4] = ["json", "watch", "failed", "remote"];

const FOLLOW_OPTIONS: [&str; 6] = [
    "json",
    "user",
    "transaction",
    "last",
    "level",
    "follow-again",
];

const OUTBOX_OPTIONS: [&str; 1] = ["json"];

const SEND_OPTIONS: [&str; 9] = [
    "user",
    "to",
    "class",
    "closure",
    "urgent",
    "into",
    "wait",
    "retry",
    "recursive",
];

// The most times that a file is sent again.
const MOST_RETRIES: u64 = 1_000;

const TASK_OPTIONS: [&str; 24] = [
    "json",
    "watch",
    "user",
    "transaction",
    "to",
    "class",
    "closure",
    "urgent",
    "into",
    "wait",
    "retry",
    "recursive",
    "once",
    "delete",
    "last",
    "level",
    "follow-again",
    "log",
    "since",
    "remote",
    "failed",
    "all",
    "yes",
    "check",
];

/// Parses a command line of the program; its first word is the program's own name.
pub fn ctl_words<'a>(alloc: Global, line: &'a [String]) -> Result<CtlWords<'a>, WordsFault>
    ensures patience { IfOk result (λ words. IfSome words.patience (IsWithin 0 86400)) }
    ensures width { IfOk result (λ words. IfSome words.width (IsWithin 40 1000)) }
{
    let command = command(alloc)?;
    match command.try_get_matches_from(line) {
        Ok(matches) => words_in(alloc, &matches),
        Err(error) => Err(fault_of(alloc, &error)),
    }
}

// The fault for an error of the parser.
fn fault_of(alloc: Global, error: &Error) -> WordsFault {
    match error.kind() {
        ErrorKind::OutOfMemory => WordsFault::NoMemory,
        ErrorKind::DisplayHelp => WordsFault::Help,
        ErrorKind::DisplayVersion => WordsFault::Version,
        _ => usage(error.to_string(alloc)),
    }
}

// A usage fault with a text, unless memory for the text ran out.
pub(crate) fn usage(text: Result<String, AllocError>) -> WordsFault {
    match text {
        Ok(text) => WordsFault::Usage(text),
        Err(_) => WordsFault::NoMemory,
    }
}

// The words that the matches of a command line give.
fn words_in<'a>(alloc: Global, matches: &ArgMatches<'a>) -> Result<CtlWords<'a>, WordsFault>
    ensures patience { IfOk result (λ words. IfSome words.patience (IsWithin 0 86400)) }
    ensures width { IfOk result (λ words. IfSome words.width (IsWithin 40 1000)) }
{
    let patience = number_of(alloc, matches, "wait-for-server", 0, MOST_PATIENCE)?;
    let width = number_of(alloc, matches, "width", 40, 1000)?;
    let colour = colour_of(alloc, matches)?;
    let task = task_of(alloc, matches)?;
    Ok(CtlWords {
        control: matches.get_str("control"),
        patience,
        colour,
        width,
        task,
    })
}

fn colour_of(alloc: Global, matches: &ArgMatches<'_>) -> Result<Colour, WordsFault> {
    let Some(word) = matches.get_str("colour") else {
        return Ok(Colour::Auto);
    };
    match colour_named(word) {
        Some(colour) => Ok(colour),
        None => Err(bad_value(alloc, "colour", word, "must be auto, always or never")),
    }
}

fn colour_named(word: &str) -> Option<Colour> {
    match word {
        "auto" => Some(Colour::Auto),
        "always" => Some(Colour::Always),
        "never" => Some(Colour::Never),
        _ => None,
    }
}

// The task, by the first word.
fn task_of<'a>(alloc: Global, matches: &ArgMatches<'a>) -> Result<Task<'a>, WordsFault> {
    match matches.get_strs("words") {
        None => input_task(alloc, matches),
        Some(words) => task_by(alloc, matches, words),
    }
}

fn task_by<'a>(
    alloc: Global,
    matches: &ArgMatches<'a>,
    words: &[&'a str],
) -> Result<Task<'a>, WordsFault> {
    match words {
        [] => input_task(alloc, matches),
        ["status", others @ ..] => status_task(alloc, matches, others),
        ["follow", others @ ..] => follow_task(alloc, matches, others),
        ["outbox", others @ ..] => outbox_task(alloc, matches, others),
        ["send", files @ ..] => send_task(alloc, matches, files),
        ["watch", folders @ ..] => watch_task(alloc, matches, folders),
        ["check", others @ ..] => check_task(alloc, matches, others),
        ["journal", word] => journal_task(alloc, matches, word),
        ["history", logs @ ..] => history_task(alloc, matches, logs),
        ["windows", plans @ ..] => windows_task(alloc, matches, plans),
        ["resend", word, logs @ ..] => resend_task(alloc, matches, word, logs),
        [name, ..] => match act_asked(alloc, matches, words)? {
            Some(act) => Ok(Task::Act(act)),
            None => command_task(alloc, matches, name, words),
        },
    }
}

// The task of reading commands from the standard input.
fn input_task<'a>(alloc: Global, matches: &ArgMatches<'a>) -> Result<Task<'a>, WordsFault> {
    only_options(alloc, matches, "the standard input", &[])?;
    Ok(Task::Input)
}

fn command_task<'a>(
    alloc: Global,
    matches: &ArgMatches<'a>,
    name: &str,
    words: &[&str],
) -> Result<Task<'a>, WordsFault> {
    only_options(alloc, matches, name, &[])?;
    match command_text(alloc, words)? {
        Some(text) => Ok(Task::Command(text)),
        None => Err(usage(String::from_str(
            alloc,
            "error: no word of a command may be empty, or have a space or a line feed\n",
        ))),
    }
}

fn status_task<'a>(
    alloc: Global,
    matches: &ArgMatches<'a>,
    others: &[&str],
) -> Result<Task<'a>, WordsFault> {
    only_options(alloc, matches, "status", &STATUS_OPTIONS)?;
    no_words(alloc, "status", others)?;
    Ok(Task::Status(StatusWords {
        json: matches.get_flag("json"),
        watch: matches.get_flag("watch"),
        failed: matches.get_flag("failed"),
        remote: number_of(alloc, matches, "remote", 0, u64::MAX)?,
    }))
}

fn follow_task<'a>(
    alloc: Global,
    matches: &ArgMatches<'a>,
    others: &[&str],
) -> Result<Task<'a>, WordsFault> {
    only_options(alloc, matches, "follow", &FOLLOW_OPTIONS)?;
    no_words(alloc, "follow", others)?;
    Ok(Task::Follow(FollowWords {
        json: matches.get_flag("json"),
        user: matches.get_str("user"),
        transaction: transaction_asked(alloc, matches)?,
        last: number_of(alloc, matches, "last", 0, MOST_EVENTS)?,
        level: level_asked(alloc, matches)?,
        again: matches.get_flag("follow-again"),
    }))
}

// The level of events to follow. People get no pieces of files unless they ask for them.
fn level_asked<'a>(alloc: Global, matches: &ArgMatches<'a>) -> Result<Option<&'a str>, WordsFault> {
    match matches.get_str("level") {
        None if matches.get_flag("json") => Ok(None),
        None => Ok(Some("info")),
        Some(word) if is_level(word) => Ok(Some(word)),
        Some(word) => Err(bad_value(alloc, "level", word, "must be detail, info or warning")),
    }
}

fn is_level(word: &str) -> bool {
    matches!(word, "detail" | "info" | "warning")
}

fn outbox_task<'a>(
    alloc: Global,
    matches: &ArgMatches<'a>,
    others: &[&str],
) -> Result<Task<'a>, WordsFault> {
    only_options(alloc, matches, "outbox", &OUTBOX_OPTIONS)?;
    no_words(alloc, "outbox", others)?;
    Ok(Task::Outbox(OutboxWords {
        json: matches.get_flag("json"),
    }))
}

fn check_task<'a>(
    alloc: Global,
    matches: &ArgMatches<'a>,
    others: &[&str],
) -> Result<Task<'a>, WordsFault> {
    only_options(alloc, matches, "check", &[])?;
    no_words(alloc, "check", others)?;
    Ok(Task::Check)
}

fn send_task<'a>(
    alloc: Global,
    matches: &ArgMatches<'a>,
    files: &[&'a str],
) -> Result<Task<'a>, WordsFault> {
    only_options(alloc, matches, "send", &SEND_OPTIONS)?;
    let remote = number_of(alloc, matches, "to", 0, u64::MAX)?;
    let class = number_of(alloc, matches, "class", 1, 2)?;
    let retries = retries_asked(alloc, matches)?;
    match remote {
        Some(remote) if !files.is_empty() => Ok(Task::Send(SendWords {
            remote,
            user: matches.get_str("user"),
            class: class.unwrap_or(2),
            is_closed: matches.get_flag("closure"),
            is_urgent: matches.get_flag("urgent"),
            into: matches.get_str("into"),
            wait: matches.get_flag("wait"),
            retries,
            recursive: matches.get_flag("recursive"),
            files: Vec::from_slice(alloc, files)?,
        })),
        _ => Err(usage(String::from_str(alloc, "error: send needs --to REMOTE, and files\n"))),
    }
}

// How often a file is sent again, which only somebody knows who waits for its end.
fn retries_asked(alloc: Global, matches: &ArgMatches<'_>) -> Result<u64, WordsFault> {
    match number_of(alloc, matches, "retry", 0, MOST_RETRIES)? {
        None => Ok(0),
        Some(retries) if matches.get_flag("wait") => Ok(retries),
        Some(_) => Err(usage(String::from_str(alloc, "error: --retry needs --wait\n"))),
    }
}

fn journal_task<'a>(
    alloc: Global,
    matches: &ArgMatches<'a>,
    word: &str,
) -> Result<Task<'a>, WordsFault> {
    only_options(alloc, matches, "journal", &[])?;
    match transaction_of(word) {
        Some(transaction) => Ok(Task::Journal(transaction)),
        None => Err(usage(format!(in alloc;
            "error: journal: '{word}' is not a transaction (SOURCE.SEQ)\n"
        ))),
    }
}

// The transaction of the option, if it is given.
fn transaction_asked(
    alloc: Global,
    matches: &ArgMatches<'_>,
) -> Result<Option<TransactionWord>, WordsFault> {
    let Some(word) = matches.get_str("transaction") else {
        return Ok(None);
    };
    match transaction_of(word) {
        Some(transaction) => Ok(Some(transaction)),
        None => Err(bad_value(
            alloc,
            "transaction",
            word,
            "is not a transaction (SOURCE.SEQ)",
        )),
    }
}

// The transaction that a word names.
pub(crate) fn transaction_of(word: &str) -> Option<TransactionWord> {
    let (source, seq) = word.split_once('.')?;
    let source = decimal(source)?;
    let seq = decimal(seq)?;
    Some(TransactionWord { source, seq })
}

// The number that a word writes in decimal digits.
fn decimal(word: &str) -> Option<u64> {
    if word.starts_with('+') {
        return None;
    }
    word.parse::<u64>().ok()
}

// The number of an option, if it is given.
pub(crate) fn number_of(
    alloc: Global,
    matches: &ArgMatches<'_>,
    name: &str,
    least: u64,
    most: u64,
) -> Result<Option<u64>, WordsFault>
    ensures { IfOk result (λ found. IfSome found (IsWithin least most)) }
{
    let Some(word) = matches.get_str(name) else {
        return Ok(None);
    };
    match decimal(word) {
        Some(number) if number >= least && number <= most => Ok(Some(number)),
        _ => Err(usage(format!(in alloc;
            "error: --{name}: '{word}' is not a number from {least} to {most}\n"
        ))),
    }
}

// Refuses the options that a command doesn't have.
pub(crate) fn only_options(
    alloc: Global,
    matches: &ArgMatches<'_>,
    name: &str,
    options: &[&str],
) -> Result<(), WordsFault> {
    for option in TASK_OPTIONS {
        if is_given(matches, option) && !has_word(options, option) {
            return Err(usage(format!(in alloc; "error: --{option} doesn't go with {name}\n")));
        }
    }
    Ok(())
}

// Whether an option is given.
fn is_given(matches: &ArgMatches<'_>, option: &str) -> bool {
    if matches!(
        option,
        "json"
            | "watch"
            | "closure"
            | "urgent"
            | "wait"
            | "recursive"
            | "once"
            | "delete"
            | "failed"
            | "all"
            | "yes"
            | "check"
            | "follow-again"
    ) {
        matches.get_flag(option)
    } else {
        matches.contains_id(option)
    }
}

fn has_word(words: &[&str], word: &str) -> bool {
    words.iter().any(|one| *one == word)
}

fn no_words(alloc: Global, name: &str, others: &[&str]) -> Result<(), WordsFault> {
    match others.first() {
        None => Ok(()),
        Some(other) => Err(usage(format!(in alloc;
            "error: {name} doesn't take the word '{other}'\n"
        ))),
    }
}

fn bad_value(alloc: Global, option: &str, word: &str, what: &str) -> WordsFault {
    usage(format!(in alloc; "error: --{option}: '{word}' {what}\n"))
}
