//! Prints the transactions that ended, from logs.
use crate::fault::CtlFault;
use crate::reasons::reason_of;
use crate::screen::Screen;
use ctl_views::{
    Ended, History, NO_SUM, Page, Sums, Wanted, Way, ended_json, is_listed, moment_begun,
    push_ended, push_sums, sums_json,
};
use ctl_words::HistoryWords;
use std::alloc::Global;
use std::fs::File;
use std::io::{BufRead, BufReader, Read, Write};
use std::rt::Files;

// The most octets of a line that are read: more than a server writes.
const LINE_OCTETS: u64 = 1_048_576;

// What is read of the logs so far.
#[derive(Drop)]
struct Reading {
    history: History,
    wanted: Wanted,
    is_json: bool,
    sums: Sums,
}

/// Prints the transactions that ended, log by log, and their sums; returns the exit status.
pub(crate) fn print_history<R, W, E>(
    rt: &R,
    alloc: Global,
    screen: &mut Screen<W, E>,
    words: &HistoryWords<'_>,
) -> Result<u8, CtlFault>
where
    R: Files,
    W: Write + Drop,
    E: Write + Drop,
{
    let Some(mut reading) = reading_for(alloc, screen, words)? else {
        return Ok(2);
    };
    let mut status = 0;
    for path in words.logs.as_slice() {
        match File::open(rt, path) {
            Ok(file) => {
                if !read_log(alloc, screen, &mut reading, file)? {
                    complain_of(alloc, screen, path, "it can't be read")?;
                    status = 3;
                }
            }
            Err(error) => {
                complain_of(alloc, screen, path, reason_of(&error))?;
                status = 3;
            }
        }
    }
    print_sums(alloc, screen, &mut reading)?;
    Ok(status)
}

// The reading before any log. If the word for the moment isn't one, prints a line and returns `None`.
fn reading_for<W: Write + Drop, E: Write + Drop>(
    alloc: Global,
    screen: &mut Screen<W, E>,
    words: &HistoryWords<'_>,
) -> Result<Option<Reading>, CtlFault> {
    let since = match words.since {
        None => None,
        Some(word) => match moment_begun(alloc, word)? {
            Some(moment) => Some(moment),
            None => {
                let text = format!(in alloc;
                    "error: --since: '{word}' is not a moment (2026-11-26T12:00:00Z, or its beginning)"
                )?;
                screen.complain_line(alloc, text.as_str());
                return Ok(None);
            }
        },
    };
    Ok(Some(Reading {
        history: History::new(alloc),
        wanted: Wanted {
            since,
            remote: words.remote,
            only_failed: words.failed,
        },
        is_json: words.json,
        sums: Sums {
            sent: NO_SUM,
            received: NO_SUM,
            unknown: NO_SUM,
            open: 0,
            skipped: 0,
        },
    }))
}

fn complain_of<W: Write + Drop, E: Write + Drop>(
    alloc: Global,
    screen: &mut Screen<W, E>,
    path: &str,
    reason: &str,
) -> Result<(), CtlFault> {
    let text = format!(in alloc; "cfdp_ctl: {path}: {reason}")?;
    screen.complain_line(alloc, text.as_str());
    Ok(())
}

// Reads a log to its end; false if it can't be read.
fn read_log<F: Read + Drop, W: Write + Drop, E: Write + Drop>(
    alloc: Global,
    screen: &mut Screen<W, E>,
    reading: &mut Reading,
    file: F,
) -> Result<bool, CtlFault> {
    let Ok(mut reader) = BufReader::new(alloc, file) else {
        return Err(CtlFault::NoMemory);
    };
    let mut line = Vec::new(alloc);
    let mut is_cut = false;
    for _ in 0..u64::MAX {
        line.clear();
        let read = (&mut reader).take(LINE_OCTETS).read_until(b'\n', &mut line);
        match read {
            Ok(0) => {
                if is_cut {
                    reading.history.skip();
                }
                return Ok(true);
            }
            Ok(_) if is_long(line.as_slice()) => is_cut = true,
            Ok(_) if is_cut => {
                reading.history.skip();
                is_cut = false;
            }
            Ok(_) => take_line(alloc, screen, reading, line.as_slice())?,
            Err(_) => return Ok(false),
        }
    }
    Ok(true)
}

// Whether what was read is a part of a line that is too long, and not its end.
fn is_long(line: &[u8]) -> bool {
    line.len() as u64 >= LINE_OCTETS && line.last() != Some(&b'\n')
}

fn take_line<W: Write + Drop, E: Write + Drop>(
    alloc: Global,
    screen: &mut Screen<W, E>,
    reading: &mut Reading,
    line: &[u8],
) -> Result<(), CtlFault> {
    let text = String::from_utf8_lossy(alloc, line)?;
    match reading.history.take(text.as_str())? {
        Some(ended) if is_wanted(reading.wanted, &ended) => {
            count(&mut reading.sums, &ended);
            print_ended(alloc, screen, reading.is_json, &ended)
        }
        _ => Ok(()),
    }
}

fn is_wanted(wanted: Wanted, ended: &Ended) -> bool {
    is_listed(wanted, ended.moment, ended.peer, ended.end)
}

fn count(sums: &mut Sums, ended: &Ended) {
    let octets = ended.size.unwrap_or(0);
    match ended.way {
        Way::Sent => sums.sent.add(ended.end, octets),
        Way::Received => sums.received.add(ended.end, octets),
        Way::Unknown => sums.unknown.add(ended.end, octets),
    }
}

fn print_ended<W: Write + Drop, E: Write + Drop>(
    alloc: Global,
    screen: &mut Screen<W, E>,
    is_json: bool,
    ended: &Ended,
) -> Result<(), CtlFault> {
    if is_json {
        let json = ended_json(alloc, ended)?;
        return screen.print_line(alloc, "", json.as_slice());
    }
    let mut page = Page::new(alloc);
    push_ended(alloc, &mut page, ended)?;
    screen.print_page(alloc, &page)
}

fn print_sums<W: Write + Drop, E: Write + Drop>(
    alloc: Global,
    screen: &mut Screen<W, E>,
    reading: &mut Reading,
) -> Result<(), CtlFault> {
    let open = reading.history.open_count() as u64;
    reading.sums.open = reading.history.cut.saturating_add(open);
    reading.sums.skipped = reading.history.skipped;
    if reading.is_json {
        let json = sums_json(alloc, &reading.sums)?;
        return screen.print_line(alloc, "", json.as_slice());
    }
    let mut page = Page::new(alloc);
    push_sums(alloc, &mut page, &reading.sums)?;
    screen.print_page(alloc, &page)
}
