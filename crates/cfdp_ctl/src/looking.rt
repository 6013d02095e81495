//! Shows the status and the outbox.
use crate::asking::{Line, first_line, line_again, may_return};
use crate::fault::CtlFault;
use crate::screen::Screen;
use ctl_views::{StatusView, exit_status, outcome_of, shown_lines};
use ctl_words::{OutboxWords, StatusWords};
use std::alloc::Global;
use std::io::Write;
use std::net::Net;
use std::sync::Wait;
use std::thread;
use std::time::{Clock, Duration};

/// Prints the status, once or each second, and returns the exit status. Each second goes on with the next server at the
/// same path, if the server goes away.
pub(crate) fn look<R, W, E>(
    rt: &R,
    alloc: Global,
    screen: &mut Screen<W, E>,
    line: &mut Line,
    path: &str,
    words: StatusWords,
) -> Result<u8, CtlFault>
where
    R: Net + Clock + Wait,
    W: Write + Drop,
    E: Write + Drop,
{
    let mut view = StatusView::new(alloc);
    for _ in rt.forever() {
        match look_once(rt, alloc, screen, line, words, &mut view) {
            Ok(0) if words.watch => thread::sleep(rt, Duration::from_secs(1)),
            Err(CtlFault::Station(fault)) if words.watch && may_return(fault) => {
                *line = line_again(rt, alloc, screen, path, fault)?;
                view = StatusView::new(alloc);
            }
            done => return done,
        }
    }
    Ok(0)
}

fn look_once<R, W, E>(
    rt: &R,
    alloc: Global,
    screen: &mut Screen<W, E>,
    line: &mut Line,
    words: StatusWords,
    view: &mut StatusView,
) -> Result<u8, CtlFault>
where
    R: Clock + Wait,
    W: Write + Drop,
    E: Write + Drop,
{
    let answer = line.ask(rt, b"status")?;
    let status = exit_status(outcome_of(first_line(answer.as_slice())));
    if status != 0 || (words.json && is_whole(words)) {
        screen.print_lines(alloc, answer.as_slice())?;
    } else if words.json {
        let lines = String::from_utf8_lossy(alloc, answer.as_slice())?;
        let shown = shown_lines(alloc, lines.as_str(), words.remote, words.failed)?;
        screen.print_lines(alloc, shown.as_bytes())?;
    } else {
        print_status(alloc, screen, words, view, answer.as_slice())?;
    }
    Ok(status)
}

// Whether everything is shown.
fn is_whole(words: StatusWords) -> bool {
    words.remote.is_none() && !words.failed
}

fn print_status<W: Write + Drop, E: Write + Drop>(
    alloc: Global,
    screen: &mut Screen<W, E>,
    words: StatusWords,
    view: &mut StatusView,
    answer: &[u8],
) -> Result<(), CtlFault> {
    let lines = String::from_utf8_lossy(alloc, answer)?;
    let page = if is_whole(words) {
        view.look(lines.as_str(), screen.width)?
    } else {
        let shown = shown_lines(alloc, lines.as_str(), words.remote, words.failed)?;
        view.look(shown.as_str(), screen.width)?
    };
    if words.watch {
        screen.print_over(alloc, &page)
    } else {
        screen.print_page(alloc, &page)
    }
}

/// Prints the files that wait in the outbox, and returns the exit status.
pub(crate) fn look_at_outbox<R, W, E>(
    rt: &R,
    alloc: Global,
    screen: &mut Screen<W, E>,
    line: &mut Line,
    words: OutboxWords,
) -> Result<u8, CtlFault>
where
    R: Clock + Wait,
    W: Write + Drop,
    E: Write + Drop,
{
    let answer = line.ask(rt, b"outbox")?;
    let status = exit_status(outcome_of(first_line(answer.as_slice())));
    if words.json || status != 0 {
        screen.print_lines(alloc, answer.as_slice())?;
    } else {
        let lines = String::from_utf8_lossy(alloc, answer.as_slice())?;
        let page = StatusView::new(alloc).look(lines.as_str(), screen.width)?;
        screen.print_page(alloc, &page)?;
    }
    Ok(status)
}
