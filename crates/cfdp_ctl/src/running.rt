//! Does what the command line asks for.
use crate::acting::act;
use crate::asking::Line;
use crate::checking::{check, print_unanswered};
use crate::fault::CtlFault;
use crate::following::follow;
use crate::history::print_history;
use crate::hold::Hold;
use crate::items::{Item, items_at};
use crate::looking::{look, look_at_outbox};
use crate::opening::open_by;
use crate::planning::{show_plan, windows_at};
use crate::resending::resend;
use crate::screen::Screen;
use crate::sending::send;
use crate::tasks::{print_journal, run_command, run_input};
use crate::watching::{is_folder, watch};
use ctl_words::{Colour, CtlWords, Task, WordsFault, ctl_help, ctl_version, ctl_words};
use std::alloc::Global;
use std::env;
use std::env::Env;
use std::io::{ErrorKind, Write};
use std::net::Net;
use std::rt::Files;
use std::sync::Wait;
use std::time::Clock;

/// Does what the command line asks for, and returns the exit status.
pub(crate) fn run<R, W, E>(rt: &R, alloc: Global, screen: &mut Screen<W, E>) -> u8
where
    R: Net + Clock + Wait + Env + Files + Input + Hold + AllocGlobal + Copy + Drop,
    W: Write + Drop,
    E: Write + Drop,
{
    match words_given(rt) {
        Ok(words) => run_line(rt, alloc, screen, words.as_slice()),
        Err(fault) => told(alloc, screen, fault),
    }
}

// The words of the command line; the first is the program's own name.
fn words_given<R: Env + AllocGlobal>(rt: &R) -> Result<Vec<String>, CtlFault> {
    let mut words = Vec::new(rt.alloc());
    match env::args(rt) {
        Ok(given) => {
            for word in given {
                if words.push(word).is_err() {
                    return Err(CtlFault::NoMemory);
                }
            }
            Ok(words)
        }
        Err(error) if error.kind() == ErrorKind::OutOfMemory => Err(CtlFault::NoMemory),
        Err(_) => Err(CtlFault::Words),
    }
}

fn run_line<R, W, E>(rt: &R, alloc: Global, screen: &mut Screen<W, E>, line: &[String]) -> u8
where
    R: Net + Clock + Wait + Env + Files + Input + Hold + AllocGlobal + Copy + Drop,
    W: Write + Drop,
    E: Write + Drop,
{
    match ctl_words(alloc, line) {
        Ok(words) => match run_words(rt, alloc, screen, &words) {
            Ok(status) => status,
            Err(fault) => told(alloc, screen, fault),
        },
        Err(fault) => words_status(alloc, screen, &fault),
    }
}

// Reports a fault, and returns its exit status.
fn told<W: Write + Drop, E: Write + Drop>(
    alloc: Global,
    screen: &mut Screen<W, E>,
    fault: CtlFault,
) -> u8 {
    if let Some(text) = fault.text()
        && let Ok(line) = format!(in alloc; "cfdp_ctl: {text}\n")
    {
        screen.complain(alloc, line.as_str());
    }
    fault.status()
}

// Reports why a command line isn't taken, or prints what it asks for.
fn words_status<W: Write + Drop, E: Write + Drop>(
    alloc: Global,
    screen: &mut Screen<W, E>,
    fault: &WordsFault,
) -> u8 {
    match fault {
        WordsFault::Help => printed(alloc, screen, ctl_help()),
        WordsFault::Version => printed(alloc, screen, ctl_version()),
        WordsFault::NoMemory => told(alloc, screen, CtlFault::NoMemory),
        WordsFault::Usage(text) => {
            screen.complain(alloc, text.as_str());
            2
        }
    }
}

// Prints a text, and returns the exit status.
fn printed<W: Write + Drop, E: Write + Drop>(
    alloc: Global,
    screen: &mut Screen<W, E>,
    text: &str,
) -> u8 {
    match screen.print(text.as_bytes()) {
        Ok(()) => 0,
        Err(fault) => told(alloc, screen, fault),
    }
}

// A variable of the environment, if it is set to a text that isn't empty.
fn variable<R: Env + AllocGlobal>(rt: &R, name: &str) -> Option<String> {
    match env::var(rt, name) {
        Ok(text) if !text.is_empty() => Some(text),
        _ => None,
    }
}

// How many columns the environment asks for.
fn columns_given<R: Env + AllocGlobal>(rt: &R) -> Option<usize> {
    let text = variable(rt, "COLUMNS")?;
    let columns = text.parse::<usize>().ok()?;
    if columns < 40 || columns > 1000 {
        None
    } else {
        Some(columns)
    }
}

fn run_words<R, W, E>(
    rt: &R,
    alloc: Global,
    screen: &mut Screen<W, E>,
    words: &CtlWords<'_>,
) -> Result<u8, CtlFault>
where
    R: Net + Clock + Wait + Env + Files + Input + Hold + AllocGlobal + Copy + Drop,
    W: Write + Drop,
    E: Write + Drop,
{
    screen.is_coloured = is_coloured(rt, words.colour, screen.is_terminal);
    if let Some(columns) = width_given(rt, words.width) {
        screen.width = columns;
    }
    if let Task::History(task) = &words.task {
        return print_history(rt, alloc, screen, task);
    }
    if let Task::Windows(task) = &words.task
        && task.check
    {
        return show_plan(rt, alloc, screen, task.plan);
    }
    if let Some(path) = words.control {
        return run_told(rt, alloc, screen, words, path);
    }
    match variable(rt, "CFDP_CONTROL") {
        Some(path) => run_told(rt, alloc, screen, words, path.as_str()),
        None => Err(CtlFault::NoPath),
    }
}

fn is_coloured<R: Env + AllocGlobal>(rt: &R, colour: Colour, is_terminal: bool) -> bool {
    match colour {
        Colour::Always => true,
        Colour::Never => false,
        Colour::Auto => is_terminal && variable(rt, "NO_COLOR").is_none(),
    }
}

// How many columns the command line or the environment asks for.
fn width_given<R: Env + AllocGlobal>(rt: &R, width: Option<u64>) -> Option<usize> {
    match width {
        Some(columns) => usize::try_from(columns).ok(),
        None => columns_given(rt),
    }
}

// Does what the command line asks for at a control socket. Reports a fault there with the path.
fn run_told<R, W, E>(
    rt: &R,
    alloc: Global,
    screen: &mut Screen<W, E>,
    words: &CtlWords<'_>,
    path: &str,
) -> Result<u8, CtlFault>
where
    R: Net + Clock + Wait + Env + Files + Input + Hold + AllocGlobal + Copy + Drop,
    W: Write + Drop,
    E: Write + Drop,
{
    match run_at(rt, alloc, screen, words, path) {
        Err(CtlFault::Station(fault)) if matches!(words.task, Task::Check) => {
            print_unanswered(alloc, screen, path, fault)
        }
        Err(CtlFault::Station(fault)) => {
            let text = fault.text();
            let line = format!(in alloc; "cfdp_ctl: {path}: {text}")?;
            screen.clear_progress();
            screen.complain_line(alloc, line.as_str());
            Ok(CtlFault::Station(fault).status())
        }
        done => done,
    }
}

fn run_at<R, W, E>(
    rt: &R,
    alloc: Global,
    screen: &mut Screen<W, E>,
    words: &CtlWords<'_>,
    path: &str,
) -> Result<u8, CtlFault>
where
    R: Net + Clock + Wait + Env + Files + Input + Hold + AllocGlobal + Copy + Drop,
    W: Write + Drop,
    E: Write + Drop,
{
    let Some(items) = items_of(rt, alloc, screen, &words.task)? else {
        return Ok(3);
    };
    if let Task::Watch(task) = &words.task
        && !is_folder(rt, alloc, screen, task.folder)?
    {
        return Ok(3);
    }
    if let Task::Windows(task) = &words.task {
        return match windows_at(rt, alloc, screen, task.plan)? {
            Ok(windows) => {
                let mut line = Line::open(rt, alloc, path, words.patience)?;
                open_by(
                    rt,
                    alloc,
                    screen,
                    &mut line,
                    (path, task.plan),
                    windows.as_slice(),
                )
            }
            Err(status) => Ok(status),
        };
    }
    let mut line = Line::open(rt, alloc, path, words.patience)?;
    match &words.task {
        Task::Status(task) => look(rt, alloc, screen, &mut line, path, *task),
        Task::Follow(task) => follow(rt, alloc, screen, &mut line, path, *task),
        Task::Outbox(task) => look_at_outbox(rt, alloc, screen, &mut line, *task),
        Task::Check => check(rt, alloc, screen, &mut line),
        Task::Send(task) => send(rt, alloc, screen, &mut line, task, items.as_slice()),
        Task::Watch(task) => watch(rt, alloc, screen, &mut line, path, *task),
        Task::Journal(transaction) => print_journal(rt, alloc, screen, &mut line, *transaction),
        Task::Act(task) => act(rt, alloc, screen, &mut line, *task),
        Task::Resend(task) => resend(rt, alloc, screen, &mut line, task),
        Task::Windows(task) => show_plan(rt, alloc, screen, task.plan),
        Task::History(task) => print_history(rt, alloc, screen, task),
        Task::Command(text) => run_command(rt, alloc, screen, &mut line, text.as_bytes()),
        Task::Input => run_input(rt, alloc, screen, &mut line),
    }
}

// The files of a `send`, and none for any other task; `None` if a path gives no file.
fn items_of<R, W, E>(
    rt: &R,
    alloc: Global,
    screen: &mut Screen<W, E>,
    task: &Task<'_>,
) -> Result<Option<Vec<Item>>, CtlFault>
where
    R: Files + AllocGlobal + Copy + Drop,
    W: Write + Drop,
    E: Write + Drop,
{
    match task {
        Task::Send(words) => items_at(rt, alloc, screen, words.files.as_slice(), words.recursive),
        _ => Ok(Some(Vec::new(alloc))),
    }
}
