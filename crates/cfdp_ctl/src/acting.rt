//! Gives a command for one transaction, or for several.
use crate::asking::{Line, first_line};
use crate::fault::CtlFault;
use crate::screen::Screen;
use ctl_views::{Live, Page, Tone, exit_status, is_remote, outcome_of, read_live};
use ctl_words::{ActWords, Choice, Verb, act_command};
use std::alloc::{AllocError, Global};
use std::io::{BufRead, BufReader, Read, Write};
use std::sync::Wait;
use std::time::Clock;

/// Gives the command for each chosen transaction, and returns the exit status: 0 if each was taken.
pub(crate) fn act<R, W, E>(
    rt: &R,
    alloc: Global,
    screen: &mut Screen<W, E>,
    line: &mut Line,
    words: ActWords<'_>,
) -> Result<u8, CtlFault>
where
    R: Clock + Wait + Input,
    W: Write + Drop,
    E: Write + Drop,
{
    let answer = line.ask(rt, b"status")?;
    let status = exit_status(outcome_of(first_line(answer.as_slice())));
    if status != 0 {
        screen.print_lines(alloc, answer.as_slice())?;
        return Ok(status);
    }
    let chosen = chosen_in(alloc, words.choice, answer.as_slice())?;
    if chosen.is_empty() {
        screen.complain_line(alloc, "cfdp_ctl: no such transaction is under way");
        return Ok(status_of_none(words.choice));
    }
    if !words.yes && !is_agreed(rt, alloc, screen, words.verb, chosen.len())? {
        return Ok(2);
    }
    act_on_all(rt, alloc, screen, line, words.verb, chosen.as_slice())
}

// The exit status where no transaction is chosen.
fn status_of_none(choice: Choice<'_>) -> u8 {
    match choice {
        Choice::One(_) => 3,
        Choice::Many(_, _) => 0,
    }
}

// The transactions of a status that are chosen.
fn chosen_in(alloc: Global, choice: Choice<'_>, answer: &[u8]) -> Result<Vec<Live>, AllocError> {
    let lines = String::from_utf8_lossy(alloc, answer)?;
    let mut chosen = Vec::new(alloc);
    for line in lines.as_str().split('\n') {
        if let Some(live) = read_live(alloc, line)?
            && is_chosen(choice, &live)
            && chosen.push(live).is_err()
        {
            return Err(AllocError);
        }
    }
    Ok(chosen)
}

fn is_chosen(choice: Choice<'_>, live: &Live) -> bool {
    match choice {
        Choice::One(asked) => asked.source == live.source && asked.seq == live.seq,
        Choice::Many(remote, user) => is_remote(remote, live.peer) && is_of_user(user, live),
    }
}

fn is_of_user(user: Option<&str>, live: &Live) -> bool {
    match user {
        None => true,
        Some(name) => live.user.as_str() == name,
    }
}

// Whether somebody at a terminal agrees. Without a terminal nobody does.
fn is_agreed<R, W, E>(
    rt: &R,
    alloc: Global,
    screen: &mut Screen<W, E>,
    verb: Verb,
    count: usize,
) -> Result<bool, CtlFault>
where
    R: Input,
    W: Write + Drop,
    E: Write + Drop,
{
    let name = verb_name(verb);
    if !screen.can_ask {
        let text = format!(in alloc;
            "cfdp_ctl: {name} is for {count} transactions: without a terminal give --yes"
        )?;
        screen.complain_line(alloc, text.as_str());
        return Ok(false);
    }
    let text = format!(in alloc; "{name} {count} transactions? Type yes to go on:")?;
    screen.complain_line(alloc, text.as_str());
    let Ok(reader) = BufReader::new(alloc, rt.reader()) else {
        return Err(CtlFault::NoMemory);
    };
    let mut typed = Vec::new(alloc);
    match reader.take(16).read_until(b'\n', &mut typed) {
        Ok(_) => Ok(typed.as_slice() == b"yes\n".as_slice()),
        Err(_) => Err(CtlFault::Input),
    }
}

fn verb_name(verb: Verb) -> &'static str {
    match verb {
        Verb::Cancel => "cancel",
        Verb::Suspend => "suspend",
        Verb::Resume => "resume",
        Verb::Abandon => "abandon",
    }
}

// Gives the command for each transaction.
fn act_on_all<R, W, E>(
    rt: &R,
    alloc: Global,
    screen: &mut Screen<W, E>,
    line: &mut Line,
    verb: Verb,
    chosen: &[Live],
) -> Result<u8, CtlFault>
where
    R: Clock + Wait,
    W: Write + Drop,
    E: Write + Drop,
{
    let mut worst = 0u8;
    for live in chosen {
        let command = act_command(alloc, verb, live.user.as_str(), live.source, live.seq)?;
        let answer = line.ask(rt, command.as_slice())?;
        let answer = first_line(answer.as_slice());
        let status = exit_status(outcome_of(answer));
        worst = worst.max(status);
        print_answer(alloc, screen, verb, live, answer, status == 0)?;
    }
    Ok(worst)
}

fn print_answer<W: Write + Drop, E: Write + Drop>(
    alloc: Global,
    screen: &mut Screen<W, E>,
    verb: Verb,
    live: &Live,
    answer: &[u8],
    is_taken: bool,
) -> Result<(), CtlFault> {
    let (name, source, seq) = (verb_name(verb), live.source, live.seq);
    let answer = String::from_utf8_lossy(alloc, answer)?;
    let text = format!(in alloc; "{name} {source}.{seq}: {answer}")?;
    let mut page = Page::new(alloc);
    page.push_line(
        if is_taken { Tone::Plain } else { Tone::Bad },
        text.as_str(),
    )?;
    screen.print_page(alloc, &page)
}
