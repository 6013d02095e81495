//! Runs commands, from the command line or from the standard input.
use crate::asking::{Line, first_line};
use crate::fault::CtlFault;
use crate::screen::Screen;
use ctl_views::{exit_status, outcome_of};
use ctl_words::{COMMAND_OCTETS, TransactionWord, is_too_long};
use std::alloc::Global;
use std::io::{BufRead, BufReader, Read, Write};
use std::sync::Wait;
use std::time::Clock;

// How many octets of the rest of a command that is too long are read at a time.
const REST_OCTETS: u64 = 65_536;

/// Sends a command, prints the reply, and returns the exit status.
pub(crate) fn run_command<R, W, E>(
    rt: &R,
    alloc: Global,
    screen: &mut Screen<W, E>,
    line: &mut Line,
    command: &[u8],
) -> Result<u8, CtlFault>
where
    R: Clock + Wait,
    W: Write + Drop,
    E: Write + Drop,
{
    let answer = line.ask(rt, command)?;
    screen.print_lines(alloc, answer.as_slice())?;
    Ok(exit_status(outcome_of(first_line(answer.as_slice()))))
}

/// Prints a transaction as a script, and returns the exit status.
pub(crate) fn print_journal<R, W, E>(
    rt: &R,
    alloc: Global,
    screen: &mut Screen<W, E>,
    line: &mut Line,
    transaction: TransactionWord,
) -> Result<u8, CtlFault>
where
    R: Clock + Wait,
    W: Write + Drop,
    E: Write + Drop,
{
    let TransactionWord { source, seq } = transaction;
    let command = format!(in alloc; "journal {source} {seq}")?;
    let answer = line.ask_patiently(rt, command.as_bytes())?;
    screen.print_lines(alloc, answer.as_slice())?;
    Ok(exit_status(outcome_of(first_line(answer.as_slice()))))
}

// What a server replies to a line that isn't a command.
const BAD_COMMAND: &[u8] = b"bad command\n";

/// Sends the commands of the standard input in order. One that is too long for a server is a bad command. The exit status is 0 if each was taken.
pub(crate) fn run_input<R, W, E>(
    rt: &R,
    alloc: Global,
    screen: &mut Screen<W, E>,
    line: &mut Line,
) -> Result<u8, CtlFault>
where
    R: Clock + Wait + Input,
    W: Write + Drop,
    E: Write + Drop,
{
    let Ok(mut reader) = BufReader::new(alloc, rt.reader()) else {
        return Err(CtlFault::NoMemory);
    };
    let mut worst = 0;
    let mut command = Vec::new(alloc);
    for _ in 0..u64::MAX {
        if !read_command(alloc, &mut reader, &mut command)? {
            break;
        }
        let status = if is_too_long(command.as_slice()) {
            screen.print(BAD_COMMAND)?;
            exit_status(outcome_of(first_line(BAD_COMMAND)))
        } else {
            run_command(rt, alloc, screen, line, command.as_slice())?
        };
        worst = worst.max(status);
        print_events(rt, alloc, screen, line)?;
    }
    Ok(worst)
}

// Reads a line into `command`, in place of its content, without the line feed; false at the end of the input. Of a line
// that is too long only the beginning is kept.
fn read_command<B: BufRead>(
    alloc: Global,
    reader: &mut B,
    command: &mut Vec<u8>,
) -> Result<bool, CtlFault> {
    command.clear();
    let read = reader.take(COMMAND_OCTETS).read_until(b'\n', command);
    match read {
        Ok(0) => return Ok(false),
        Ok(_) => {}
        Err(_) => return Err(CtlFault::Input),
    }
    if command.last() == Some(&b'\n') {
        let _feed = command.pop();
    } else if is_too_long(command.as_slice()) {
        skip_line(alloc, reader)?;
    }
    Ok(true)
}

// Reads on to the next line feed.
fn skip_line<B: BufRead>(alloc: Global, reader: &mut B) -> Result<(), CtlFault> {
    let mut rest = Vec::new(alloc);
    for _ in 0..u64::MAX {
        rest.clear();
        match reader.take(REST_OCTETS).read_until(b'\n', &mut rest) {
            Ok(0) => break,
            Ok(_) if rest.last() == Some(&b'\n') => break,
            Ok(_) => {}
            Err(_) => return Err(CtlFault::Input),
        }
    }
    Ok(())
}

// Prints the events that came, if the server was asked to send them.
fn print_events<R, W, E>(
    rt: &R,
    alloc: Global,
    screen: &mut Screen<W, E>,
    line: &mut Line,
) -> Result<(), CtlFault>
where
    R: Clock + Wait,
    W: Write + Drop,
    E: Write + Drop,
{
    for _ in 0..u64::MAX {
        let Ok(Some(event)) = line.next_event(rt, 0) else {
            break;
        };
        screen.print_line(alloc, "event ", event.as_slice())?;
    }
    Ok(())
}
