//! Waits for the ends of files.
use crate::asking::Line;
use crate::fault::CtlFault;
use crate::screen::Screen;
use crate::sent::{Fate, SentFile, SentFiles, has_arrived};
use ctl_views::{End, Event, Page, StatusLine, Tone, push_progress, read_event, read_status_line};
use std::alloc::{AllocError, Global};
use std::io::Write;
use std::sync::Wait;
use std::time::{Clock, Duration};

// After how many milliseconds without an event the server is asked whether it still runs, and how often progress is
// shown.
const TURN_MILLIS: u64 = 500;

// How many events to handle before looking at the clock again.
const EVENTS: usize = 1_024;

// How many files have a line of progress at the same time.
const LINES: usize = 16;

/// Waits for events for a short time, and prints a line for each end of a file. Shows the files' progress if that was last shown
/// a while ago; returns when it was.
pub(crate) fn wait_and_look<R, W, E>(
    rt: &R,
    alloc: Global,
    screen: &mut Screen<W, E>,
    line: &mut Line,
    is_reported: bool,
    files: &mut SentFiles<'_>,
    shown_at: Duration,
) -> Result<Duration, CtlFault>
where
    R: Clock + Wait,
    W: Write + Drop,
    E: Write + Drop,
{
    wait_for_events(rt, alloc, screen, line, is_reported, files)?;
    if files.open == 0 || !is_due(rt, shown_at) {
        return Ok(shown_at);
    }
    look(rt, alloc, screen, line, files)?;
    Ok(now(rt))
}

/// Waits for events for a short time, and prints a line for each end of a file.
pub(crate) fn wait_for_events<R, W, E>(
    rt: &R,
    alloc: Global,
    screen: &mut Screen<W, E>,
    line: &mut Line,
    is_reported: bool,
    files: &mut SentFiles<'_>,
) -> Result<(), CtlFault>
where
    R: Clock + Wait,
    W: Write + Drop,
    E: Write + Drop,
{
    let mut patience = TURN_MILLIS;
    for _ in 0..EVENTS {
        let Some(json) = line.next_event(rt, patience)? else {
            break;
        };
        patience = 0;
        take_event(alloc, screen, is_reported, files, json.as_slice())?;
    }
    Ok(())
}

/// The moment, on the system's monotonic clock.
pub(crate) fn now<R: Clock>(rt: &R) -> Duration {
    rt.monotonic().unwrap_or(Duration::ZERO)
}

// Whether a turn has passed since a moment.
fn is_due<R: Clock>(rt: &R, since: Duration) -> bool {
    now(rt).saturating_sub(since) >= Duration::from_millis(TURN_MILLIS)
}

fn take_event<W: Write + Drop, E: Write + Drop>(
    alloc: Global,
    screen: &mut Screen<W, E>,
    is_reported: bool,
    files: &mut SentFiles<'_>,
    json: &[u8],
) -> Result<(), CtlFault> {
    let text = String::from_utf8_lossy(alloc, json)?;
    let Some(event) = read_event(alloc, text.as_str())? else {
        return Ok(());
    };
    let Some(place) = files.take(is_reported, &event)? else {
        return Ok(());
    };
    match files.files.get(place) {
        Some(file) => print_end(alloc, screen, is_reported, file, &event),
        None => Ok(()),
    }
}

fn print_end<W: Write + Drop, E: Write + Drop>(
    alloc: Global,
    screen: &mut Screen<W, E>,
    is_reported: bool,
    file: &SentFile<'_>,
    event: &Event,
) -> Result<(), CtlFault> {
    let tone = if has_arrived(is_reported, file.fate) {
        Tone::Good
    } else {
        Tone::Bad
    };
    let mut page = Page::new(alloc);
    page.push(Tone::Plain, file.item.path.as_str())?;
    page.push(Tone::Plain, ": ")?;
    page.push_line(tone, end_words(is_reported, file.fate, event))?;
    screen.clear_progress();
    screen.print_page(alloc, &page)
}

// The words for a file that has ended.
fn end_words<'a>(is_reported: bool, fate: Fate, event: &'a Event) -> &'a str {
    match fate {
        Fate::Ended(End::Unreported) if !is_reported => "sent completely; no report was asked for",
        _ => event.words.as_str(),
    }
}

// Asks whether the server still runs, by what costs it least: to send the events that it sends anyway. On a terminal then
// asks for the files' progress, which may take long if many wait, and shows it.
fn look<R, W, E>(
    rt: &R,
    alloc: Global,
    screen: &mut Screen<W, E>,
    line: &mut Line,
    files: &mut SentFiles<'_>,
) -> Result<(), CtlFault>
where
    R: Clock + Wait,
    W: Write + Drop,
    E: Write + Drop,
{
    let _answer = line.ask(rt, b"follow info")?;
    if !screen.shows_progress {
        return Ok(());
    }
    let answer = line.ask_patiently(rt, b"status")?;
    note_all(alloc, files, answer.as_slice())?;
    let mut page = Page::new(alloc);
    let count = push_lines(alloc, &mut page, files.files.as_slice())?;
    screen.show_progress(alloc, &page, count)
}

// Notes the files' progress from the lines of a status.
fn note_all(alloc: Global, files: &mut SentFiles<'_>, answer: &[u8]) -> Result<(), AllocError> {
    let lines = String::from_utf8_lossy(alloc, answer)?;
    for line in lines.as_str().split('\n') {
        if let StatusLine::Sending(progress) = read_status_line(alloc, line)? {
            files.note(progress);
        }
    }
    Ok(())
}

// Adds a line for each file that is being sent, and one for those that wait; returns how many lines these are.
fn push_lines(alloc: Global, page: &mut Page, files: &[SentFile<'_>]) -> Result<usize, AllocError> {
    let mut count = 0usize;
    let mut others = 0usize;
    for file in files {
        if !is_open(file.fate) {
            continue;
        }
        if is_under_way(file.fate) && count < LINES {
            push_line(alloc, page, file)?;
            count = count.saturating_add(1);
        } else {
            others = others.saturating_add(1);
        }
    }
    if others > 0 {
        page.push_line(Tone::Faint, format!(in alloc; "{others} more")?.as_str())?;
        count = count.saturating_add(1);
    }
    Ok(count)
}

fn push_line(alloc: Global, page: &mut Page, file: &SentFile<'_>) -> Result<(), AllocError> {
    let mut text = String::new(alloc);
    push_progress(&mut text, file.octets, file.size)?;
    text.push_str("  ")?;
    text.push_str(file.item.path.as_str())?;
    page.push_line(Tone::Plain, text.as_str())
}

fn is_open(fate: Fate) -> bool {
    matches!(fate, Fate::Queued | Fate::UnderWay | Fate::Again)
}

fn is_under_way(fate: Fate) -> bool {
    matches!(fate, Fate::UnderWay)
}
