//! Prints events as they come.
use crate::asking::{Line, first_line, line_again, may_return};
use crate::fault::CtlFault;
use crate::screen::Screen;
use ctl_views::{Event, Page, Tone, exit_status, outcome_of, read_event};
use ctl_words::FollowWords;
use std::alloc::{AllocError, Global};
use std::io::Write;
use std::net::Net;
use std::sync::Wait;
use std::time::Clock;

// How many milliseconds one wait for an event lasts, before the next one.
const TURN_MILLIS: u64 = 60_000;

/// Prints events until the server goes away. If the command line says so, then prints those of the next server at the
/// same path.
pub(crate) fn follow<R, W, E>(
    rt: &R,
    alloc: Global,
    screen: &mut Screen<W, E>,
    line: &mut Line,
    path: &str,
    words: FollowWords<'_>,
) -> Result<u8, CtlFault>
where
    R: Net + Clock + Wait,
    W: Write + Drop,
    E: Write + Drop,
{
    let mut last = words.last;
    for _ in rt.forever() {
        match follow_one(rt, alloc, screen, line, words, last) {
            Err(CtlFault::Station(fault)) if words.again && may_return(fault) => {
                *line = line_again(rt, alloc, screen, path, fault)?;
                last = None;
            }
            done => return done,
        }
    }
    Ok(0)
}

// Prints the events of one server until it goes away.
fn follow_one<R, W, E>(
    rt: &R,
    alloc: Global,
    screen: &mut Screen<W, E>,
    line: &mut Line,
    words: FollowWords<'_>,
    last: Option<u64>,
) -> Result<u8, CtlFault>
where
    R: Clock + Wait,
    W: Write + Drop,
    E: Write + Drop,
{
    let status = ask_for_events(rt, alloc, screen, line, last, words.level)?;
    if status != 0 {
        return Ok(status);
    }
    for _ in rt.forever() {
        if let Some(json) = line.next_event(rt, TURN_MILLIS)? {
            print_json(alloc, screen, words, json.as_slice())?;
        }
    }
    Ok(0)
}

/// Asks the server to send events: of a level and above if one is given, and first the last ones that it has kept if
/// their number is given. If it refuses, prints its reply. Returns the exit status for that reply.
pub(crate) fn ask_for_events<R, W, E>(
    rt: &R,
    alloc: Global,
    screen: &mut Screen<W, E>,
    line: &mut Line,
    last: Option<u64>,
    level: Option<&str>,
) -> Result<u8, CtlFault>
where
    R: Clock + Wait,
    W: Write + Drop,
    E: Write + Drop,
{
    let command = follow_command(alloc, last, level)?;
    let answer = line.ask(rt, command.as_bytes())?;
    let status = exit_status(outcome_of(first_line(answer.as_slice())));
    if status != 0 {
        screen.print_lines(alloc, answer.as_slice())?;
    }
    Ok(status)
}

fn follow_command(
    alloc: Global,
    last: Option<u64>,
    level: Option<&str>,
) -> Result<String, AllocError> {
    match (last, level) {
        (Some(count), Some(level)) => format!(in alloc; "follow {count} {level}"),
        (Some(count), None) => format!(in alloc; "follow {count}"),
        (None, Some(level)) => format!(in alloc; "follow {level}"),
        (None, None) => String::from_str(alloc, "follow"),
    }
}

// Prints the JSON of an event, if the event is wanted.
fn print_json<W: Write + Drop, E: Write + Drop>(
    alloc: Global,
    screen: &mut Screen<W, E>,
    words: FollowWords<'_>,
    json: &[u8],
) -> Result<(), CtlFault> {
    let text = String::from_utf8_lossy(alloc, json)?;
    match read_event(alloc, text.as_str())? {
        Some(event) if is_wanted(words, &event) => print_event(alloc, screen, words, json, &event),
        _ => Ok(()),
    }
}

fn print_event<W: Write + Drop, E: Write + Drop>(
    alloc: Global,
    screen: &mut Screen<W, E>,
    words: FollowWords<'_>,
    json: &[u8],
    event: &Event,
) -> Result<(), CtlFault> {
    if words.json {
        return screen.print_line(alloc, "", json);
    }
    let mut page = Page::new(alloc);
    page.push(Tone::Plain, event.head.as_str())?;
    page.push(Tone::Plain, " ")?;
    page.push_line(event.tone, event.words.as_str())?;
    screen.print_page(alloc, &page)
}

// Whether an event is about the user and the transaction that the command line names.
fn is_wanted(words: FollowWords<'_>, event: &Event) -> bool {
    is_of_user(words, event) && is_of_transaction(words, event)
}

fn is_of_user(words: FollowWords<'_>, event: &Event) -> bool {
    match (words.user, &event.user) {
        (None, _) => true,
        (Some(name), Some(user)) => user.as_str() == name,
        (Some(_), None) => false,
    }
}

fn is_of_transaction(words: FollowWords<'_>, event: &Event) -> bool {
    match (words.transaction, event.transaction) {
        (None, _) => true,
        (Some(asked), Some(own)) => asked.source == own.source && asked.seq == own.seq,
        (Some(_), None) => false,
    }
}
